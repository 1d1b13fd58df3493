// A meter's reading.

// What the meter shows, with its uncertainty, in the same unit.
#[derive(Clone, Copy)]
pub struct Reading {
    pub value: f64,
    pub uncertainty: f64,
}

// An amount in one of the three units.
#[derive(Clone, Copy)]
pub enum Amount {
    PicocuriesPerLitre(f64),
    PicocuriesPerCubicMetre(f64),
    BecquerelsPerCubicMetre(f64),
}

// What a reading is in. An amount has its number in it, as document 01 has it, so that the units are named twice.
#[derive(Clone, Copy, PartialEq, Eq)]
pub enum Unit {
    PicocuriesPerLitre,
    PicocuriesPerCubicMetre,
    BecquerelsPerCubicMetre,
}

// What the reading is of.
#[derive(Clone, Copy, PartialEq, Eq)]
pub enum Medium {
    IndoorAir,
    SoilGas,
    Groundwater,
}
