//! What a rule of a leg is.
ghost use Rattle.std.specs.Prelude.{◌≡◌, ◌≤◌, ◌<◌, ℕ};
ghost use Rattle.qn_lazy.specs.LegRules.{IsPartOf};
ghost use Rattle.qn_lazy.specs.Rules.{IsFactorOf, leg_number, part_of, place_of};

/// A function that is applied to a leg of a tensor. Legs, and the factors of the group, are counted from 1.
#[derive(Clone, Copy, Debug, PartialEq, Eq)]
pub enum LazyRule {
    /// Each entry stays what it is.
    Identity { leg: u32 },
    /// Each entry is multiplied by the part of the charge of its value that belongs to this factor.
    ChargePart { factor: u32, leg: u32 },
}

impl LazyRule {
    /// The number of the leg, from 1.
    pub fn leg(self) -> u32
        ensures { result ≡ leg_number self }
    {
        match self {
            LazyRule::Identity { leg } => leg,
            LazyRule::ChargePart { leg, .. } => leg,
        }
    }

    /// The place of the leg, from 0.
    pub(crate) fn place(self) -> usize
        requires { 1 ≤ leg_number self }
        ensures { result ≡ place_of self }
    {
        self.leg() as usize - 1
    }

    /// The place of the part of the charge that is the weight, from 0, or none where the weight is 1.
    pub(crate) fn part(self) -> Option<usize>
        requires { (n : ℕ) × IsFactorOf n self }
        ensures part { result ≡ part_of self }
        ensures there { (n : ℕ) → IsFactorOf n self → IsPartOf n result }
    {
        match self {
            LazyRule::Identity { .. } => None,
            LazyRule::ChargePart { factor, .. } => Some(factor as usize - 1),
        }
    }
}
