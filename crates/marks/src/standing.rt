// The marks that stand, counted.
ghost use Rattle.std.specs.Prelude.{◌≡◌};
ghost use Rattle.marks.specs.Counts.{ones};

// How many marks stand.
pub fn standing(marks: &[u8]) -> usize
    ensures { result ≡ ones marks.now }
{
    marks.iter().filter(|m| **m == 1).count()
}
