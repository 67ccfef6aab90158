// The dimension: 2 or 3 axes.
ghost use Rattle.std.specs.Prelude.{◌≡◌, true, not, [], ◌∷◌, IfOk};
ghost use Rattle.basics.specs.Refusals.{refuse, fault};
ghost use Rattle.basics.specs.Answers.{fault_in};
ghost use Rattle.geometry.specs.Axes.{dimension};

use basics::Refusal;

// The number of axes in use.
#[derive(Clone, Copy)]
pub struct Dimension {
    pub n: usize,
    pub ghost two_or_three: { dimension n ≡ true },
}

impl TryFrom<usize> for Dimension {
    type Error = Refusal;

    ghost try_from_gives = { λ n ndim. (fault_in ndim ≡ fault (refuse 1 (not (dimension n)) ∷ [])) × IfOk ndim (λ d. d.n ≡ n) };

    #[tactic(auto, unfolding(basics::specs::Refusals::fault))]
    fn try_from(n: usize) -> Result<Dimension, Refusal> {
        if (n == 2) | (n == 3) {
            Ok(Dimension { n })
        } else {
            Err(Refusal::Dimension)
        }
    }
}
