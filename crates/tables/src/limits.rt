// The limits of a table, as specs/Answers.antt names them.
ghost use Rattle.std.specs.Prelude.{◌≡◌};
ghost use Rattle.tables.specs.Answers.{table_room};

use book::MAX_MEMBERS;
use entry::ENTRY_LENGTH;

// A table has 1 to so many rates.
pub const MAX_RATES: usize = 200;

// No rate that is accepted has more digits.
pub const RATE_DIGITS: usize = 6;

// No table is longer: a line has the rate, a space and an entry for each member, and a line feed.
pub const TABLE_ROOM: usize = MAX_RATES * (RATE_DIGITS + MAX_MEMBERS * (1 + ENTRY_LENGTH) + 1);

// The constant is the definition's.
fn table_room() -> usize
    ensures { result ≡ table_room }
{
    TABLE_ROOM
}
