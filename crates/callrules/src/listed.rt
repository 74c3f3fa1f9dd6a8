// Whether a frame or a table has a value in the ranked column that the list lacks: refusal 12.
ghost use Rattle.std.specs.Prelude.{◌≡◌, true, ◌≤◌, ◌<◌, length};
ghost use Rattle.frames.specs.Cells.{rows_in};
ghost use Rattle.frames.specs.Frame.{frame_rows, is_table};
ghost use Rattle.order.specs.ranks.Ranks.{listed, Indexed};
ghost use Rattle.order.specs.options.Options.{Few, options_of};
ghost use Rattle.order.specs.Listed.{unlisted_in, lacks_code};
ghost use Rattle.searching.specs.Requires.{ColumnIn};

use frames::RowSlice;
use order::options::Rules;
use rows::framerule::row_count;
use rows::ranking::place_of;

// Whether the list has v. A value known to be in the list is not looked up again: most rows have the value of the row before.
fn is_listed(v: i64, known: i64, codes: &[i64], rising: &[u8]) -> bool
    requires { Indexed codes.now rising.now × (listed codes.now known ≡ true) }
    ensures { result ≡ listed codes.now v }
{
    if v == known {
        return true;
    }
    place_of(codes, rising, v) < codes.len()
}

// Whether one of n rows, each w wide, has a value in column j that the list lacks.
fn any_unlisted(rows: RowSlice<'_>, j: usize, codes: &[i64], rising: &[u8]) -> bool
    requires { ColumnIn j rows.width rows.count rows.values.now rows.marks.now × Indexed codes.now rising.now × (0 < length codes.now) }
    ensures { result ≡ unlisted_in codes.now j (rows_in rows.entry) }
{
    let mut known = codes[0];
    for i in 0..rows.count {
        let k = i * rows.width + j;
        if rows.marks[k] != 0 {
            let v = rows.values[k];
            if !is_listed(v, known, codes, rising) {
                return true;
            }
            known = v;
        }
    }
    false
}

// Whether a table of c columns has a value in the ranked column that the list lacks.
pub fn lacks_code(table: &[i64], c: usize, rules: Rules<'_>) -> bool
    requires { Few (options_of rules) × (rules.terms.by ≤ c) × (is_table c table.now ≡ true) }
    ensures { result ≡ lacks_code (options_of rules.entry) (frame_rows c table.now) }
{
    if !rules.terms.given {
        return false;
    }
    let n = row_count(table);
    let e = 2 + n * c;
    let count = rules.terms.count;
    let j = rules.terms.column;
    any_unlisted(
        RowSlice {
            values: &table[2..e],
            marks: &table[e..],
            count: n,
            width: c,
        },
        j,
        &rules.codes[..count],
        &rules.rising[..count],
    )
}
