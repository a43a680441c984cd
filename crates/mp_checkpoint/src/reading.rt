//! Reading the lines of a checkpoint, loosely: what comes of other texts is open.
ghost use Rattle.std.specs.Prelude.{◌≡◌, ◌≢◌, ◌++◌, ◌∷◌, [], ◌<◌, ◌≤◌, ◌^◌, ℕ, List, All, IfOk, IfSome, MatchOption, OnOk, Some, true, false};
ghost use Rattle.std.specs.Fmt.{decimal};
ghost use Rattle.mp_checkpoint_laws.specs.Files.{SavedLine, cell_on, cells_on, first_line, format_of, last_line, line_text, wake_on, wakes_on};
ghost use Rattle.mp_checkpoint.specs.Loose.{AreReadable, IsReadable};
ghost use Rattle.mp_checkpoint.specs.Written.{texts_of};

use memchr::memchr;
use mp_opening::{KeyCell, KeyWake};
use mp_saved::Saved;
use mp_text::number;
use std::alloc::{AllocError, Global};

/// The start of a line: its first byte, stage and key, and the text behind their bars.
#[derive(Drop)]
struct Start<'a> {
    kind: u8,
    stage: u32,
    key: u64,
    rest: &'a [u8],
}

// Adds the cells and wakes of the lines of a text, up to the first line that says neither. `AllocError`: no memory, and some
// may be added.
pub fn read_items<Q: Saved>(
    alloc: Global,
    query: &Q,
    text: &[u8],
    cells: &mut Vec<KeyCell<Q::Cell>>,
    wakes: &mut Vec<KeyWake>,
) -> Result<(), AllocError>
    ensures { (until n : ℕ) (lines : List (SavedLine Q.Cell)) → n < 2 ^ 64 → AreReadable (format_of Q.NUMBER (Q.values query.now) (Q.facts (Q.values query.now)) Q.text_of) until lines →
        text.now ≡ texts_of (format_of Q.NUMBER (Q.values query.now) (Q.facts (Q.values query.now)) Q.text_of) lines ++ (last_line n ++ 10 ∷ []) →
        OnOk result ((cells.new.items ≡ cells.old.items ++ cells_on lines) × (wakes.new.items ≡ wakes.old.items ++ wakes_on lines)) }
{
    let mut left = text;
    while let Some((line, rest)) = cut_at(b'\n', left) {
        if !read_item(alloc, query, line, cells, wakes)? {
            return Ok(());
        }
        left = rest;
    }
    Ok(())
}

// Adds the cell or the wake of a line; whether it says one.
fn read_item<Q: Saved>(
    alloc: Global,
    query: &Q,
    line: &[u8],
    cells: &mut Vec<KeyCell<Q::Cell>>,
    wakes: &mut Vec<KeyWake>,
) -> Result<bool, AllocError>
    ensures item { (until : ℕ) (l : SavedLine Q.Cell) → IsReadable (format_of Q.NUMBER (Q.values query.now) (Q.facts (Q.values query.now)) Q.text_of) until l.stage l.key l.holds →
        line.now ≡ line_text (format_of Q.NUMBER (Q.values query.now) (Q.facts (Q.values query.now)) Q.text_of) l.stage l.key l.holds →
        IfOk result (λ more. (more ≡ true) × (cells.new.items ≡ cells.old.items ++ cell_on l.stage l.key l.holds) × (wakes.new.items ≡ wakes.old.items ++ wake_on l.stage l.key l.holds)) }
    ensures last { (n : ℕ) → line.now ≡ last_line n → IfOk result (λ more. (more ≡ false) × (cells.new.items ≡ cells.old.items) × (wakes.new.items ≡ wakes.old.items)) }
{
    let Some(start) = start_of(line) else {
        return Ok(false);
    };
    match start.kind {
        b'c' => {
            let added = add_cell(alloc, query, start, cells)?;
            Ok(added)
        }
        b'w' => {
            let added = add_wake(start, wakes)?;
            Ok(added)
        }
        _ => Ok(false),
    }
}

fn add_cell<Q: Saved>(
    alloc: Global,
    query: &Q,
    start: Start,
    cells: &mut Vec<KeyCell<Q::Cell>>,
) -> Result<bool, AllocError>
    ensures { (until : ℕ) (cell : Q.Cell) → (Q.facts (Q.values query.now)).allows start.entry.stage start.entry.key until cell ≡ true → Q.text_of start.entry.stage cell ≡ start.entry.rest.now →
        IfOk result (λ more. (more ≡ true) × (cells.new.items ≡ cells.old.items ++ record { stage = start.entry.stage; key = start.entry.key; cell = cell } ∷ [])) }
{
    let (stage, key) = (start.stage, start.key);
    let Some(cell) = query.read_cell(alloc, stage, start.rest)? else {
        return Ok(false);
    };
    cells.push(KeyCell { stage, key, cell })?;
    Ok(true)
}

fn add_wake(start: Start, wakes: &mut Vec<KeyWake>) -> Result<bool, AllocError>
    ensures { (time : ℕ) → time < 2 ^ 64 → start.entry.rest.now ≡ decimal time →
        IfOk result (λ more. (more ≡ true) × (wakes.new.items ≡ wakes.old.items ++ record { stage = start.entry.stage; key = start.entry.key; time = time } ∷ [])) }
{
    let (stage, key) = (start.stage, start.key);
    let Ok(time) = number(start.rest, u64::MAX) else {
        return Ok(false);
    };
    wakes.push(KeyWake { stage, key, time })?;
    Ok(true)
}

fn start_of(line: &[u8]) -> Option<Start>
    ensures start { (b j k : ℕ) (rest : List ℕ) → j < 2 ^ 32 → k < 2 ^ 64 → line.now ≡ b ∷ 124 ∷ (decimal j ++ 124 ∷ (decimal k ++ 124 ∷ rest)) →
        MatchOption result ⊥ (λ start. (start.kind ≡ b) × (start.stage ≡ j) × (start.key ≡ k) × (start.rest.now ≡ rest)) }
    ensures kind { IfSome result (λ start. (rest : List ℕ) × (line.now ≡ start.kind ∷ rest)) }
{
    let [kind, b'|', rest @ ..] = line else {
        return None;
    };
    let (stage, rest) = number_in(rest, u64::from(u32::MAX))?;
    let (key, rest) = number_in(rest, u64::MAX)?;
    Some(Start {
        kind: *kind,
        stage: stage as u32,
        key,
        rest,
    })
}

// The number in front of the first bar, and the text behind that.
fn number_in(text: &[u8], most: u64) -> Option<(u64, &[u8])>
    ensures read { (n : ℕ) (rest : List ℕ) → n < 2 ^ 64 → n ≤ most → text.now ≡ decimal n ++ 124 ∷ rest → MatchOption result ⊥ (λ cut. (cut.0 ≡ n) × (cut.1.now ≡ rest)) }
    ensures within { IfSome result (λ cut. cut.0 ≤ most) }
{
    let (word, rest) = cut_at(b'|', text)?;
    match number(word, most) {
        Ok(number) => Some((number, rest)),
        Err(_) => None,
    }
}

// What stands in front of the first byte of this kind, and what behind it.
pub fn cut_at(byte: u8, text: &[u8]) -> Option<(&[u8], &[u8])>
    ensures cut { (front rest : List ℕ) → All (λ b. b ≢ byte) front → text.now ≡ front ++ byte ∷ rest → MatchOption result ⊥ (λ cut. (cut.0.now ≡ front) × (cut.1.now ≡ rest)) }
    ensures shorter { IfSome result (λ cut. text.now ≡ cut.0.now ++ byte ∷ cut.1.now) }
{
    let end = memchr(byte, text)?;
    Some((&text[..end], &text[end + 1..]))
}
