// The presence table. A kind's row takes any number for the kind.
#![tactic(auto)]

ghost use Rattle.std.specs.Prelude.{◌≡◌, ℕ, ◌<◌, [], get_or, T};
ghost use Rattle.presence.specs.Rows.{row_by, agrees, by_kind, row_of};

mod tables;

// The test over the table, which each caller has to pass: nothing is left of it when it runs.
fn agreed(table: &[[u8; 256]; 6])
    requires { T (agrees by_kind 0 6 table.now) }
    ensures { (row : ℕ) → row < 6 → get_or table.now row [] ≡ row_by (by_kind row) }
{}

// "a table of 1,536 entries": the row of a kind, with the code of each plain number; zeros for what is no kind.
// A reading copies, so the row is read once a check.
pub fn row_of(kind: u32) -> [u8; 256]
    ensures { result ≡ row_of kind }
{
    agreed(&tables::PRESENCE);
    match kind {
        1 => tables::ACCESS_REQUEST,
        2 => tables::START,
        3 => tables::STOP,
        4 => tables::ON,
        5 => tables::OFF,
        6 => tables::INTERIM_UPDATE,
        _ => [0u8; 256],
    }
}
