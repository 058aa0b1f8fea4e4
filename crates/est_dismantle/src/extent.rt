// The size, the height and the traps of a kernel term, in numbers that stop at the greatest u64.

ghost use Rattle.std.specs.Prelude.{◌≡◌, ◌-◌, ◌^◌, min};
ghost use Rattle.est_dismantle.specs.Extents.{IsExtent};
ghost use Rattle.est_dismantle.specs.Measures.{Measures, leaf, over, trapped, joined, tested, suspended, copied};
ghost use Rattle.est_dismantle.specs.Measures.{raised};

/// The nodes of a term, those on the longest way down, and the traps one in another; a number that does not fit
/// is the greatest u64.
#[derive(Clone, Copy)]
pub(crate) struct Extent {
    pub size: u64,
    pub height: u64,
    pub traps: u64,
}

impl Extent {
    /// That of a node without parts.
    #[tactic(auto, unfolding(crate::specs::Extents::IsExtent, crate::specs::Measures::leaf))]
    pub(crate) fn leaf() -> Extent
        ensures { IsExtent result leaf }
    {
        Extent {
            size: 1,
            height: 1,
            traps: 0,
        }
    }

    /// That of a node over this part.
    #[tactic(auto, unfolding(crate::specs::Extents::IsExtent, crate::specs::Measures::over))]
    pub(crate) fn over(self) -> Extent
        ensures { (p : Measures) → IsExtent self p → IsExtent result (over p) }
    {
        Extent {
            size: self.size.saturating_add(1),
            height: self.height.saturating_add(1),
            traps: self.traps,
        }
    }

    /// That of a trap around this part.
    #[tactic(auto, unfolding(crate::specs::Extents::IsExtent, crate::specs::Measures::trapped))]
    pub(crate) fn trapped(self) -> Extent
        ensures { (p : Measures) → IsExtent self p → IsExtent result (trapped p) }
    {
        Extent {
            size: self.size.saturating_add(1),
            height: self.height.saturating_add(1),
            traps: self.traps.saturating_add(1),
        }
    }

    /// That of a node over these two parts.
    #[tactic(auto, unfolding(crate::specs::Extents::IsExtent, crate::specs::Measures::joined))]
    pub(crate) fn joined(self, other: Extent) -> Extent
        ensures { (p q : Measures) → IsExtent self p → IsExtent other q → IsExtent result (joined p q) }
    {
        Extent {
            size: self.size.saturating_add(other.size).saturating_add(1),
            height: self.height.max(other.height).saturating_add(1),
            traps: self.traps.max(other.traps),
        }
    }

    /// That of this test between two parts.
    #[tactic(auto, unfolding(crate::specs::Extents::IsExtent, crate::specs::Measures::tested))]
    pub(crate) fn tested(self, yes: Extent, no: Extent) -> Extent
        ensures { (e p q : Measures) → IsExtent self e → IsExtent yes p → IsExtent no q
            → IsExtent result (tested e p q) }
    {
        let parts = yes.size.saturating_add(no.size);
        Extent {
            size: self.size.saturating_add(parts).saturating_add(1),
            height: self.height.max(yes.height.max(no.height)).saturating_add(1),
            traps: yes.traps.max(no.traps),
        }
    }

    /// That of this test before a part.
    #[tactic(auto, unfolding(crate::specs::Extents::IsExtent, crate::specs::Measures::suspended))]
    pub(crate) fn suspended(self, part: Extent) -> Extent
        ensures { (e p : Measures) → IsExtent self e → IsExtent part p → IsExtent result (suspended e p) }
    {
        Extent {
            size: self.size.saturating_add(part.size).saturating_add(1),
            height: self.height.max(part.height).saturating_add(1),
            traps: part.traps,
        }
    }

    /// That of this part, this many times in one sequence.
    #[tactic(auto, unfolding(crate::specs::Extents::IsExtent, crate::specs::Measures::copied, crate::specs::Measures::leaf))]
    pub(crate) fn copied(self, count: u128) -> Extent
        ensures { (p : Measures) → IsExtent self p → IsExtent result (copied count p) }
    {
        if count == 0 {
            return Extent::leaf();
        }
        let joints = count - 1;
        let parts = count.saturating_mul(self.size as u128);
        Extent {
            size: lowered(parts.saturating_add(joints)),
            height: lowered(joints.saturating_add(self.height as u128)),
            traps: self.traps,
        }
    }

    /// That of this many nodes, one over another, over this part.
    #[tactic(auto, unfolding(crate::specs::Extents::IsExtent, crate::specs::Measures::raised))]
    pub(crate) fn raised(self, count: usize) -> Extent
        ensures { (p : Measures) → IsExtent self p → IsExtent result (raised count p) }
    {
        Extent {
            size: self.size.saturating_add(count as u64),
            height: self.height.saturating_add(count as u64),
            traps: self.traps,
        }
    }
}

// The number, or the greatest u64 where it does not fit.
fn lowered(number: u128) -> u64
    ensures { result ≡ min number (2 ^ 64 - 1) }
{
    if number > u64::MAX as u128 {
        u64::MAX
    } else {
        number as u64
    }
}
