// An assignment of a circuit that the circuit's rows may judge.
ghost use Rattle.std.specs.Prelude.{◌≡◌, ◌*◌, length};
ghost use Rattle.assignment.specs.Assignment.{entry};
ghost use Rattle.assignment.specs.Bounded.{BelowPrime};
ghost use Rattle.circuit.specs.Wires.{wire_count};
ghost use Rattle.circuit.specs.Ranges.{Allowed};
ghost use Rattle.runs.specs.AtMostOne.{Allowed-prop};

use circuit::circuits::Circuit;

// It has an entry for each wire, all of them below the prime, and 1 on wire 0.
#[derive(Clone, Copy)]
pub struct Candidate<'a> {
    pub circuit: Circuit,
    pub assignment: &'a [u8],
    pub ghost allowed: { Allowed circuit } by { Allowed-prop circuit },
    pub ghost whole: { length assignment.now ≡ 8 * wire_count circuit },
    pub ghost one: { entry assignment.now 0 ≡ 1 },
    pub ghost below: { BelowPrime assignment.now },
}
