// One use of what the search named, as a whole or in part.
ghost use Rattle.std.specs.Prelude.{◌≡◌, length};
ghost use Rattle.rows.specs.Edition.{labels};
ghost use Rattle.format.specs.Reading.{Readable};
ghost use Rattle.program.specs.Program.{program_in};
ghost use Rattle.uses.specs.Use.{Lent};
ghost use Rattle.host.specs.Lays.{Known};
ghost use Rattle.indexing.specs.Begins.{Named};
ghost use Rattle.turns.specs.Steps.{StepsFor};

use host::Host;
use indexing::position::Position;
use sets::Set;

// One use of the rules of a record, or of the lines: of a load, for these labels of its object, where they are all that is new.
fn use_at(
    t: &mut [u64],
    wide: bool,
    file: &[u8],
    host: &Host,
    keeps: &mut [u64; 256],
    position: Position,
    part: Option<Set>,
) -> bool
    requires { Lent wide 0 (length t.old) × Readable (labels wide) file.now × Named (labels wide) file.now position }
    ensures steps_for { Known wide (program_in (labels wide) file.now) host.now → StepsFor wide file.now t.old keeps.old t.new keeps.new }
    ensures t_len_unchanged { length t.new ≡ length t.old }
{
    let Position::Record(at) = position else {
        return passes::lines(t, 0, wide, host, keeps);
    };
    let s = records::statement_at(wide, file, at);
    match part {
        Some(labels) => apply::apply_part(t, wide, host, s, labels),
        None => apply::apply(t, 0, wide, host, keeps, s),
    }
}

// The same; unions are forgotten where something grew.
pub fn use_found(
    t: &mut [u64],
    wide: bool,
    file: &[u8],
    host: &Host,
    keeps: &mut [u64; 256],
    position: Position,
    part: Option<Set>,
) -> bool
    requires { Lent wide 0 (length t.old) × Readable (labels wide) file.now × Named (labels wide) file.now position }
    ensures steps_for { Known wide (program_in (labels wide) file.now) host.now → StepsFor wide file.now t.old keeps.old t.new keeps.new }
    ensures t_len_unchanged { length t.new ≡ length t.old }
{
    let grew = use_at(t, wide, file, host, keeps, position, part);
    if grew {
        kept::forget(keeps, wide);
    }
    grew
}
