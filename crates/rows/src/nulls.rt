// Nulls among rows, told by their marks in one pass.
ghost use Rattle.std.specs.Prelude.{◌≡◌};
ghost use Rattle.rows.specs.nulls.Nulls.{any_zero};

// Whether a mark says null.
pub fn any_null(marks: &[i64]) -> bool
    ensures { result ≡ any_zero marks.now }
{
    marks.contains(&0)
}
