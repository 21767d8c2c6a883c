// The band that the axles of a record are to lie in.
ghost use Rattle.std.specs.Prelude.{◌≤◌};

use crate::circuits::Circuit;

// Two bounds from 2 to 99, ends included, the lower no greater than the upper.
#[derive(Clone, Copy, Debug, PartialEq, Eq)]
pub struct Band {
    pub lower: u64,
    pub upper: u64,
    ghost in_range: { (2 ≤ lower) × (lower ≤ upper) × (upper ≤ 99) },
}

impl Band {
    ghost use Rattle.std.specs.Prelude.{◌≡◌, IfSome, is_some};
    ghost use Rattle.circuit.specs.Axles.{bounds_in_range};
    ghost use Rattle.circuit.specs.Ranges.{Allowed};
    ghost use Rattle.circuit.specs.declared.circuits.Circuit.TheVariants.{Axles};

    // The band between two bounds, where they are in range.
    #[tactic(auto, unfolding(crate::specs::Axles::bounds_in_range))]
    pub fn new(lower: u64, upper: u64) -> Option<Band>
        ensures some { is_some result ≡ bounds_in_range lower upper }
        ensures value { IfSome result (λ band. (band.lower ≡ lower) × (band.upper ≡ upper)) }
    {
        if lower < 2 || upper < lower || 99 < upper {
            return None;
        }
        Some(Band { lower, upper })
    }

    // The circuit of a record with axles in this band.
    pub fn circuit(self) -> Circuit
        ensures value { result ≡ Axles self.lower self.upper }
        ensures allowed { Allowed result }
    {
        Circuit::Axles {
            lower: self.lower,
            upper: self.upper,
        }
    }
}
