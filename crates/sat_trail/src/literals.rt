// Literals by number, and lists by place.

use sat_kernel::Literal;

/// A literal as one number: twice the variable's, and one more where the literal is negative.
#[derive(Clone, Copy)]
pub struct LiteralId(pub u32);

impl LiteralId {
    pub fn of(literal: Literal) -> LiteralId {
        LiteralId::signed(literal.variable, literal.positive)
    }

    pub fn signed(variable: u32, positive: bool) -> LiteralId {
        let sign: u32 = if positive { 0 } else { 1 };
        LiteralId(variable.wrapping_mul(2) | sign)
    }

    pub fn literal(self) -> Literal {
        Literal {
            variable: self.0 >> 1,
            positive: self.is_positive(),
        }
    }

    #[inline(always)]
    pub fn opposite(self) -> LiteralId {
        LiteralId(self.0 ^ 1)
    }

    #[inline(always)]
    pub fn place(self) -> usize {
        self.0 as usize
    }

    #[inline(always)]
    pub fn variable(self) -> usize {
        (self.0 >> 1) as usize
    }

    #[inline(always)]
    pub fn is_positive(self) -> bool {
        self.0 & 1 == 0
    }
}

/// Writes a value at a place. Past the end nothing happens.
#[inline(always)]
pub fn put<T: Copy>(list: &mut [T], place: usize, value: T) {
    if place < list.len() {
        list[place] = value;
    }
}

/// The value at a place, or `other` past the end.
#[inline(always)]
pub fn at<T: Copy>(list: &[T], place: usize, other: T) -> T {
    if place < list.len() {
        list[place]
    } else {
        other
    }
}

/// A number in 32 bits. A larger one becomes the largest.
#[inline(always)]
pub fn small(number: usize) -> u32 {
    if number < 0xffff_ffff {
        number as u32
    } else {
        u32::MAX
    }
}
