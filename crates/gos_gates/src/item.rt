// The items of lines: numbers, each with the byte that ends it.
//
// `Err` is the place of the first byte that can't go on as the item, or the end of the text. Then the cursor may have
// moved.
ghost use Rattle.std.specs.Prelude.{◌≡◌, ℕ, ◌≤◌, false, IfOk, IfErr, OnOk};
ghost use Rattle.std.specs.Char.{is_ascii_digit};
ghost use Rattle.std.specs.Fmt.{decimal};
ghost use Rattle.gos_lex.specs.ItemTexts.{ended};
ghost use Rattle.gos_gates.specs.inner.Shapes.{Shape, Word, Number, Leads, Breaks};

use gos_lex::Cursor;

/// Passes exactly these bytes.
pub fn word(cursor: &mut Cursor, bytes: &[u8]) -> Result<(), usize>
    ensures passed { OnOk result ((rest : Shape) → Leads cursor.old cursor.new (Word bytes.now rest) rest) }
    ensures wrong { IfErr result (λ place. (rest : Shape) → Breaks (Word bytes.now rest) cursor.old place) }
{
    match cursor.word(bytes) {
        Ok(()) => Ok(()),
        Err(at) => Err(at),
    }
}

/// Passes exactly this number, and the byte that ends it.
pub fn exactly(cursor: &mut Cursor, number: u32, end: u8) -> Result<(), usize>
    requires no_digit { is_ascii_digit end ≡ false }
    ensures passed { OnOk result ((rest : Shape) → Leads cursor.old cursor.new (Word (ended end (decimal number)) rest) rest) }
    ensures wrong { IfErr result (λ place. (rest : Shape) → Breaks (Word (ended end (decimal number)) rest) cursor.old place) }
{
    let exact = u64::from(number);
    match cursor.ended_number(exact, exact, end) {
        Ok(_) => Ok(()),
        Err(at) => Err(at),
    }
}

/// Passes a number up to `high`, and the byte that ends it.
pub fn number(cursor: &mut Cursor, high: u32, end: u8) -> Result<u32, usize>
    requires no_digit { is_ascii_digit end ≡ false }
    ensures within { IfOk result (λ n. n ≤ high) }
    ensures passed { IfOk result (λ n. (rest : ℕ → Shape) → Leads cursor.old cursor.new (Number high end rest) (rest n)) }
    ensures wrong { IfErr result (λ place. (rest : ℕ → Shape) → Breaks (Number high end rest) cursor.old place) }
{
    match cursor.ended_number(0, u64::from(high), end) {
        Ok(n) => Ok(n as u32),
        Err(at) => Err(at),
    }
}
