// The ranges of a shield.
ghost use Rattle.std.specs.Prelude.{◌≡◌, ◌≤◌, ◌∷◌, [], length};
ghost use Rattle.board_model.specs.Layers.{widened};
ghost use Rattle.board_shield.specs.Shields.{first_covered};

use board::MOST;
use board_model::Range;
use datasheet::Refusal;

/// The table of a shield: up to eight ranges, of which the first `used` count. It is a plain struct within the shield, so that
/// widening lends one of its ranges on and changes it in the table itself.
#[derive(Clone, Copy, Debug, PartialEq, Eq)]
pub struct Ranges {
    ranges: [Range; 8],
    used: usize,
    ghost eight: { length ranges ≡ 8 },
    ghost few: { used ≤ 8 },
}

/// The first place that both ranges have, if there is one.
fn first_shared(one: &Range, other: &Range) -> Option<usize>
    ensures { result ≡ first_covered (one.now ∷ []) other.now.start other.now.count }
{
    let first = one.start.max(other.start);
    let shared = first - one.start < one.count && first - other.start < other.count;
    shared.then_some(first)
}

/// A range with more places, 1,048,576 in all at the most.
fn widen_range(range: &mut Range, by: usize)
    ensures { range.new ≡ widened range.old by }
{
    range.count = range.count.saturating_add(by).min(MOST);
}

impl Ranges {
    ghost use Rattle.std.specs.Prelude.{◌++◌, if◌then◌else◌, is_some, Ok, Err, nat_lt};
    ghost use Rattle.datasheet.specs.declared.refusal.Refusal.TheVariants.{OutOfRange, ShieldFull};
    ghost use Rattle.board_model.specs.Layers.{stopped};
    ghost use Rattle.board_shield.specs.Shields.{widened_at, first_covered};
    ghost use Rattle.board_shield.specs.Tables.{ranges_of};

    /// A table with no range.
    pub fn new() -> Ranges
        ensures { ranges_of result ≡ [] }
    {
        Ranges {
            ranges: [Range { start: 0, count: 0 }; 8],
            used: 0,
        }
    }

    /// Adds a range behind the others, with a count of 1,048,576 at the most; a ninth is refused by `ShieldFull`, and changes
    /// nothing.
    pub fn add(&mut self, range: Range) -> Result<(), Refusal>
        ensures answer { result ≡
            (if nat_lt (length (ranges_of self.old)) 8 then Ok tt else Err ShieldFull) }
        ensures after { ranges_of self.new ≡
            (if nat_lt (length (ranges_of self.old)) 8 then (ranges_of self.old ++ stopped range ∷ []) else ranges_of self.old) }
    {
        // Tested first, for `get_mut` says nothing of the array after its borrow, and the proof needs the other ranges unchanged.
        if self.used >= self.ranges.len() {
            return Err(Refusal::ShieldFull);
        }
        self.ranges[self.used] = Range {
            start: range.start,
            count: range.count.min(MOST),
        };
        self.used += 1;
        Ok(())
    }

    /// Widens range i by so many places, to 1,048,576 at most. Where there is no range i it is refused by `OutOfRange`, and nothing
    /// changes.
    pub fn widen(&mut self, i: usize, by: usize) -> Result<(), Refusal>
        ensures answer { result ≡
            (if nat_lt i (length (ranges_of self.old)) then Ok tt else Err OutOfRange) }
        ensures after { ranges_of self.new ≡ widened_at (ranges_of self.old) i by }
    {
        // Tested first, as in `add`. Tried by `get_mut` on the ranges in use: a part of an array beside an invariant cannot be
        // lent to be changed.
        if i >= self.used {
            return Err(Refusal::OutOfRange);
        }
        widen_range(&mut self.ranges[i], by);
        Ok(())
    }

    /// The ranges in use.
    fn in_use(&self) -> &[Range]
        ensures { result.now ≡ ranges_of self.now }
    {
        &self.ranges[..self.used]
    }

    /// The first place among those asked that a range has: eight comparisons at the most.
    pub(crate) fn first_in(&self, asked: Range) -> Option<usize>
        ensures { result ≡ first_covered (ranges_of self.now) asked.start asked.count }
    {
        self.in_use()
            .iter()
            .filter_map(|range| first_shared(range, &asked))
            .min()
    }

    /// Whether a range has one of the places asked.
    pub(crate) fn has_any(&self, asked: Range) -> bool
        ensures { result ≡ is_some (first_covered (ranges_of self.now) asked.start asked.count) }
    {
        self.in_use()
            .iter()
            .any(|range| first_shared(range, &asked).is_some())
    }
}
