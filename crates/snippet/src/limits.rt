ghost use Rattle.std.specs.Prelude.{◌≤◌};

/// How many values, registers and locations the snippets of a pair use.
#[derive(Clone, Copy)]
pub struct Limits {
    pub values: u8,
    pub registers: u8,
    pub locations: u8,
    ghost few_values: { 2 ≤ values },
    ghost most_values: { values ≤ 4 },
    ghost few_registers: { 1 ≤ registers },
    ghost most_registers: { registers ≤ 4 },
    ghost few_locations: { 1 ≤ locations },
    ghost most_locations: { locations ≤ 8 },
}
