ghost use Rattle.std.specs.Prelude.{◌≡◌, ℕ, not, ◌==◌};
ghost use Rattle.std.specs.List.{position, zip};
ghost use Rattle.order.specs.Differences.{first_difference};

// The first index at which two rows differ.
pub fn first_difference(a: &[u8], b: &[u8]) -> Option<usize>
    ensures { result ≡ first_difference a.now b.now }
{
    let differs = differs_within(a, b);
    if a.len() == b.len() {
        differs
    } else {
        differs.or(Some(a.len().min(b.len())))
    }
}

// The first index below both lengths at which they differ.
fn differs_within(a: &[u8], b: &[u8]) -> Option<usize>
    ensures { result ≡ position (λ (p : ℕ × ℕ). not (p.0 == p.1)) (zip a.now b.now) }
{
    a.iter().zip(b).position(|(x, y)| x != y)
}
