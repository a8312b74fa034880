// Whether two lent slices hold the same bytes.
ghost use Rattle.std.specs.Prelude.{◌≡◌, eqb};
ghost use Rattle.plan_same.specs.Same.{eq_list};

// The slices are of one length and hold the same bytes.
#[tactic(auto, using(crate::proofs::Laws::same_list, crate::proofs::Laws::other_length, crate::proofs::Laws::same_start))]
pub(crate) fn same_bytes(a: &[u8], b: &[u8]) -> bool
    ensures { result ≡ eq_list eqb a.now b.now }
{
    a == b
}
