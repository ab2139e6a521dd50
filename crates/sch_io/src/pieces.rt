//! Numbers of bytes that one call moves at most.

ghost use Rattle.std.specs.Prelude.{◌≡◌};
ghost use Rattle.sch_io.specs.Pieces.{at_most};

/// So many, or as many as are set where these are fewer.
pub(crate) fn at_most(most: Option<usize>, n: usize) -> usize
    ensures { result ≡ at_most most n }
{
    match most {
        Some(most) => n.min(most),
        None => n,
    }
}
