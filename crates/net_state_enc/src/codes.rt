// Codes of leaves: which bits of a code must have which values where a leaf is selected.

ghost use Rattle.std.specs.Prelude.{◌≡◌, ◌+◌, ◌-◌, ◌*◌, ◌<◌, ◌≤◌, ◌^◌, ◌++◌, ◌==◌, ◌||◌, nat_le, if◌then◌else◌, length};
ghost use Rattle.std.specs.Prelude.{IfOk, OnOk};
ghost use Rattle.net_state_enc.specs.Codes.{number_code, front_code, front_width, width_by, part_way, branch_way};
ghost use Rattle.net_state_enc.specs.Codes.{leaf_codes};
ghost use Rattle.net_state_enc.specs.declared.codes.Way.TheVariants.{Loose};
ghost use Rattle.net_state_enc.specs.CodeTrees.{shape_in, widths_in, IsSized};
ghost use Rattle.net_state_enc.specs.Drafts.{literals_of};
ghost use Rattle.net_state_enc.specs.Plans.{codes_behind, needs_of, first_way, second_way, IsShort, IsPlan};
ghost use Rattle.net_state_enc.specs.Shapes.{Shape, OneOf, AllOf, widths_of};
ghost use Rattle.net_state_enc.specs.Widths.{exclusive_widths, parallel_widths};

use crate::trees::{CodeTree, Sizes, all_marked, branch_width, number_width, sizes_of};
use base_types::NoMemory;
use std::alloc::Global;

/// A bit of a code, by its place, and a value of it.
#[derive(Clone, Copy)]
pub(crate) struct Literal {
    pub bit: u32,
    pub value: bool,
}

/// How a subtree is coded.
#[derive(Clone, Copy)]
pub(crate) enum Way {
    /// It holds a selected leaf.
    Full,
    /// It may hold none.
    Loose,
    /// It is one part of several, or has several, of which one holds a selected leaf. The number of that part is
    /// written in this many bits; the first part has this number.
    Part(u32, u32),
}

/// How the parts of a node are coded: after which literals, and how and from which bit on each of the two.
#[derive(Drop)]
pub(crate) struct Plan {
    pub front: Vec<Literal>,
    pub first: Way,
    pub first_bit: u32,
    pub second: Way,
    pub second_bit: u32,
}

fn power_of_two(exponent: u32) -> u64
    requires { exponent < 32 }
    ensures { result ≡ 2 ^ exponent }
{
    1u64 << exponent
}

// What is left of a number after its highest bit.
fn low_bits(number: u32, power: u64, high: bool) -> u32
    requires { high ≡ nat_le power number }
    ensures { result ≡ (if high then number - power else number) }
{
    if high { number - power as u32 } else { number }
}

// The code of a number, the highest bit first.
fn push_number(
    literals: &mut Vec<Literal>,
    width: u32,
    number: u32,
    bit: u32,
) -> Result<(), NoMemory>
    requires short { width ≤ 32 }
    requires fits { bit + width < 2 ^ 32 }
    ensures { OnOk result (literals.new.items ≡ literals.old.items ++ number_code width number bit) }
{
    if width == 0 {
        return Ok(());
    }
    let power = power_of_two(width - 1);
    let high = power <= u64::from(number);
    literals.push(Literal { bit, value: high })?;
    push_number(literals, width - 1, low_bits(number, power, high), bit + 1)?;
    Ok(())
}

// Literals, and after them what is said of a tree in front of its branches.
fn extended(
    alloc: Global,
    known: &[Literal],
    way: Way,
    said: bool,
    bit: u32,
) -> Result<Vec<Literal>, NoMemory>
    requires short { IsShort way 0 }
    requires fits { bit + front_width way said < 2 ^ 32 }
    ensures { IfOk result (λ v. v.items ≡ known.now ++ front_code way said bit) }
{
    let mut literals = Vec::from_slice(alloc, known)?;
    match way {
        Way::Full => {}
        Way::Loose => push_unless(&mut literals, said, bit)?,
        Way::Part(width, number) => push_number(&mut literals, width, number, bit)?,
    }
    Ok(literals)
}

// The literal that says that a leaf is selected, where the branches do not.
fn push_unless(literals: &mut Vec<Literal>, said: bool, bit: u32) -> Result<(), NoMemory>
    ensures { OnOk result (literals.new.items ≡ literals.old.items ++ front_code Loose said bit) }
{
    if !said {
        literals.push(Literal { bit, value: true })?;
    }
    Ok(())
}

fn front_width(way: Way, said: bool) -> u32
    ensures { result ≡ front_width way said }
{
    match way {
        Way::Full => 0,
        Way::Loose => u32::from(!said),
        Way::Part(width, _) => width,
    }
}

fn branch_way(marked: bool) -> Way
    ensures { result ≡ branch_way marked }
{
    if marked { Way::Loose } else { Way::Full }
}

// How the part with this place is coded, of this many.
fn part_way(way: Way, parts: u32, place: u32) -> Way
    requires parts { parts + 1 < 2 ^ 32 }
    requires place { place < parts }
    requires short { IsShort way parts }
    ensures { result ≡ part_way way parts place }
{
    match way {
        Way::Full => Way::Part(number_width(parts), place),
        Way::Loose => Way::Part(number_width(parts + 1), 1 + place),
        Way::Part(width, number) => Way::Part(width, number + place),
    }
}

fn first_way(way: Way, a: Sizes, b: Sizes) -> Way
    requires parts { a.parts + b.parts + 1 < 2 ^ 32 }
    requires short { IsShort way (a.parts + b.parts) }
    ensures { result ≡ first_way way (widths_in a) (widths_in b) }
{
    if a.parts == 0 || b.parts == 0 {
        way
    } else {
        part_way(way, a.parts + b.parts, 0)
    }
}

fn second_way(way: Way, a: Sizes, b: Sizes) -> Way
    requires parts { a.parts + b.parts + 1 < 2 ^ 32 }
    requires short { IsShort way (a.parts + b.parts) }
    ensures { result ≡ second_way way (widths_in a) (widths_in b) }
{
    if a.parts == 0 || b.parts == 0 {
        way
    } else {
        part_way(way, a.parts + b.parts, a.parts)
    }
}

// How the parts of an exclusive node are coded: from one bit on.
fn parts_plan(
    alloc: Global,
    way: Way,
    bit: u32,
    known: &[Literal],
    a: Sizes,
    b: Sizes,
) -> Result<Plan, NoMemory>
    requires parts { a.parts + b.parts + 1 < 2 ^ 32 }
    requires short { IsShort way (a.parts + b.parts) }
    requires fits { bit + width_by way (exclusive_widths (widths_in a) (widths_in b)) < 2 ^ 32 }
    ensures { IfOk result (λ plan. (p q : Shape) → widths_of p ≡ widths_in a → widths_of q ≡ widths_in b
        → IsPlan plan known.now (OneOf p q) p q way bit) }
{
    let front = Vec::from_slice(alloc, known)?;
    Ok(Plan {
        front,
        first: first_way(way, a, b),
        first_bit: bit,
        second: second_way(way, a, b),
        second_bit: bit,
    })
}

// How the branches of a parallel are coded: after what is said of it, each in bits of its own.
fn branches_plan(
    alloc: Global,
    way: Way,
    bit: u32,
    known: &[Literal],
    marks: (bool, bool),
    a: Sizes,
    b: Sizes,
) -> Result<Plan, NoMemory>
    requires short { IsShort way 1 }
    requires fits { bit + width_by way (parallel_widths marks.0 marks.1 (widths_in a) (widths_in b)) < 2 ^ 32 }
    ensures { IfOk result (λ plan. (p q : Shape) → widths_of p ≡ widths_in a → widths_of q ≡ widths_in b
        → IsPlan plan known.now (AllOf marks.0 marks.1 p q) p q way bit) }
{
    let (x, y) = marks;
    let said = all_marked(x, y, a, b);
    let front = extended(alloc, known, way, said, bit)?;
    let base = bit + front_width(way, said);
    Ok(Plan {
        front,
        first: branch_way(x),
        first_bit: base,
        second: branch_way(y),
        second_bit: base + branch_width(x, a),
    })
}

// Appends the literals of the leaves of a tree that is coded this way from a bit on, each after those that are known.
#[cycle(subtree_codes)]
fn add_codes(
    alloc: Global,
    tree: &CodeTree,
    way: Way,
    bit: u32,
    known: &[Literal],
    codes: &mut Vec<Vec<Literal>>,
) -> Result<(), NoMemory>
    requires sized { IsSized tree.now }
    requires short { IsShort way (widths_of (shape_in tree.now)).parts }
    requires fits { bit + width_by way (widths_of (shape_in tree.now)) < 2 ^ 32 }
    ensures { OnOk result (literals_of codes.new.items
        ≡ literals_of codes.old.items ++ codes_behind known.now (leaf_codes (shape_in tree.now) way bit)) }
{
    match tree {
        CodeTree::NoLeaf => Ok(()),
        CodeTree::OneLeaf(_) => {
            let own = extended(alloc, known, way, false, bit)?;
            codes.push(own)?;
            Ok(())
        }
        CodeTree::OneOf(_, a, b) => {
            let plan = parts_plan(alloc, way, bit, known, sizes_of(a), sizes_of(b))?;
            add_both(alloc, &plan, a, b, codes)
        }
        CodeTree::AllOf(_, x, y, a, b) => {
            let marks = (*x, *y);
            let plan = branches_plan(alloc, way, bit, known, marks, sizes_of(a), sizes_of(b))?;
            add_both(alloc, &plan, a, b, codes)
        }
    }
}

// Appends the literals of the leaves of two parts of a node.
#[cycle(subtree_codes)]
fn add_both(
    alloc: Global,
    plan: &Plan,
    a: &CodeTree,
    b: &CodeTree,
    codes: &mut Vec<Vec<Literal>>,
) -> Result<(), NoMemory>
    requires first_sized { IsSized a.now }
    requires second_sized { IsSized b.now }
    requires first_short { IsShort plan.now.first (widths_of (shape_in a.now)).parts }
    requires first_fits { plan.now.first_bit + width_by plan.now.first (widths_of (shape_in a.now)) < 2 ^ 32 }
    requires second_short { IsShort plan.now.second (widths_of (shape_in b.now)).parts }
    requires second_fits { plan.now.second_bit + width_by plan.now.second (widths_of (shape_in b.now)) < 2 ^ 32 }
    ensures { OnOk result (literals_of codes.new.items ≡ literals_of codes.old.items
        ++ (codes_behind plan.now.front.items (leaf_codes (shape_in a.now) plan.now.first plan.now.first_bit)
        ++ codes_behind plan.now.front.items (leaf_codes (shape_in b.now) plan.now.second plan.now.second_bit))) }
{
    add_codes(alloc, a, plan.first, plan.first_bit, &plan.front, codes)?;
    add_codes(alloc, b, plan.second, plan.second_bit, &plan.front, codes)
}

/// The literals of the leaves of a tree, in the order of the leaves.
pub(crate) fn leaf_codes(alloc: Global, tree: &CodeTree) -> Result<Vec<Vec<Literal>>, NoMemory>
    requires sized { IsSized tree.now }
    ensures { IfOk result (λ v. literals_of v.items ≡ needs_of (leaf_codes (shape_in tree.now) Loose 0)) }
{
    let mut codes = Vec::new(alloc);
    let _width = sizes_of(tree).loose;
    add_codes(alloc, tree, Way::Loose, 0, &[], &mut codes)?;
    Ok(codes)
}
