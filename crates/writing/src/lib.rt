// Writing an accepted matrix as a record.
#![tactic(auto)]

mod emit;

ghost use Rattle.std.specs.Prelude.{◌≡◌, false, ◌*◌, ◌≤◌, length};
ghost use Rattle.parity.specs.Matrix.{lent, cause};
ghost use Rattle.parity.specs.Splits.{all_back, not_built};
ghost use Rattle.parity.specs.Record.{form_for};
ghost use Rattle.parity.specs.Causes.{result_reply, number_values};
ghost use Rattle.parity.specs.Calls.{write_outcome};

use crate::emit::{Rows, put_record};
use carried::recover::all_back;
use parity::{Form, Refusal};

// How many words of a check may have ones where k = 0, so that its bits are below 120.
const IN_USE: usize = 2;

// Writes the record of an accepted matrix that splits made: rows of `width` words are its checks before the splits.
fn write_checks(
    checks: &[u64],
    width: usize,
    words: &[u64],
    form: Form,
    n: usize,
    m: usize,
    k: usize,
    record: &mut [u32],
) -> Result<usize, Refusal>
    requires width_in_bounds { (m * width ≤ length checks.now) × (2 ≤ width) × (width ≤ 8) }
    requires k_value { (cause words.now n m k ≡ 0) × (not_built (lent 8 words.now) n m k ≡ false) }
    requires checks_value { (lent width checks.now ≡ all_back (lent 8 words.now) n m k) × (form ≡ form_for k) }
    ensures result_value { result_reply number_values result ≡ (write_outcome words.now n m k «record».old).reply }
    ensures record_after { «record».new ≡ (write_outcome words.now n m k «record».old).after }
{
    let rows = Rows {
        words: checks,
        width,
        used: IN_USE,
    };
    let used = rows.needed(m) + k;
    if record.len() < used {
        return Err(Refusal::RecordTooShort { needed: used });
    }
    put_record(rows, words, form, n, m, k, record);
    Ok(used)
}

// Writes an accepted matrix: the checks before all splits are rows of their own, and without any split the words have the checks themselves.
pub fn write_accepted(
    words: &[u64],
    form: Form,
    n: usize,
    m: usize,
    k: usize,
    record: &mut [u32],
) -> Result<usize, Refusal>
    requires { (cause words.now n m k ≡ 0) × (form ≡ form_for k) }
    ensures result_value { result_reply number_values result ≡ (write_outcome words.now n m k «record».old).reply }
    ensures record_after { «record».new ≡ (write_outcome words.now n m k «record».old).after }
{
    if k == 0 {
        return write_checks(words, 8, words, form, n, m, k, record);
    }
    let mut rows = [0u64; 256];
    if !all_back(words, &mut rows, n, m, k) {
        return Err(Refusal::CannotTakeBack);
    }
    write_checks(&rows, 2, words, form, n, m, k, record)
}
