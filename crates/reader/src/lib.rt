// Reads a statement file: a loop over the records with a loop over each record's fields, left at the first refusal (document 01, "What each
// operation says no to", without 8, which is about the table). `wide` says which edition it is, of 256 labels or of 64.
#![tactic(auto)]

ghost use Rattle.std.specs.Prelude.{◌≡◌};
ghost use Rattle.rows.specs.Edition.{labels};
ghost use Rattle.sheet.specs.View.{sheet_of};
ghost use Rattle.format.specs.Sheet.{start};
ghost use Rattle.format.specs.Reading.{read_from, read_file};
ghost use Rattle.reader.specs.Outcome.{IsEnding};

use answer::Refusal;
use layout::Kind;
use sheet::Sheet;

// Why a file is refused, and where.
#[derive(Clone, Copy, PartialEq, Eq)]
pub struct Refused {
    pub refusal: Refusal,
    pub position: usize,
}

// The records in order, from a fresh sheet: what they declare, and the position of the end or of the refusal at which reading stopped.
fn read_records(sheet: &mut Sheet, file: &[u8], wide: bool) -> Result<usize, Refused>
    requires { sheet_of wide sheet.old ≡ start (labels wide) }
    ensures sheet_value { sheet_of wide sheet.new ≡ (read_from (labels wide) (start (labels wide)) 0 file.now).sheet }
    ensures ending { IsEnding result (read_from (labels wide) (start (labels wide)) 0 file.now) }
{
    let mut at: usize = 0;
    let (refusal, position) = 'records: loop {
        if file.len() <= at {
            return Ok(at);
        }
        let Some(kind) = Kind::of(file[at]) else {
            break 'records (Refusal::UnknownKind, at);
        };
        let fields = kind.fields();
        let n = fields.len();
        if file.len() - at - 1 < n {
            break 'records (Refusal::RecordCutShort, at);
        }
        let body = &file[at + 1..at + 1 + n];
        for (class, byte) in fields.iter().zip(body) {
            if let Err(refusal) = fields::judge(wide, &sheet.types, &sheet.owners, *class, *byte) {
                break 'records (refusal, at); // the kind byte's position
            }
        }
        if sheet::declares(kind.number()) {
            let (next, taken) = sheet.take(wide, kind.number(), body);
            *sheet = next;
            if let Err(refusal) = taken {
                break 'records (refusal, at);
            }
        }
        at = at + 1 + n;
    };
    Err(Refused { refusal, position })
}

// A whole file: not too long, its records in order, and then no function left without its record. The sheet has what the records before the end or the
// refusal declare; with it come the position of the end, or the refusal and its position.
pub fn read(file: &[u8], wide: bool) -> (Sheet, Result<usize, Refused>)
    ensures sheet_value { sheet_of wide result.0 ≡ (read_file (labels wide) file.now).sheet }
    ensures ending { IsEnding result.1 (read_file (labels wide) file.now) }
{
    let mut sheet = sheet::fresh(wide);
    if layout::LONGEST < file.len() {
        let refusal = Refusal::FileTooLong;
        return (
            sheet,
            Err(Refused {
                refusal,
                position: 0,
            }),
        );
    }
    let end = match read_records(&mut sheet, file, wide) {
        Ok(end) => end,
        Err(no) => return (sheet, Err(no)),
    };
    if !sheet.is_complete(wide) {
        let refusal = Refusal::FunctionMissing;
        let position = end;
        return (sheet, Err(Refused { refusal, position }));
    }
    (sheet, Ok(end))
}
