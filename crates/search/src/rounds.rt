// A round over the file, for all that grew before it.
use crate::scan::Scan;
use crate::wakes::wakes;
use indexing::grown::Grown;
use indexing::index::Index;
use indexing::notes::Notes;
use indexing::record::Record;
use indexing::view::{BY_PRIM, View};
use sets::Set;

// The bytes that grew in some role, objects apart.
fn bytes_grew(grown: &Grown) -> Set {
    let values = sets::union(true, grown.variables, grown.callees);
    let labels = sets::union(true, grown.scopes, grown.labels);
    sets::union(true, values, labels)
}

// The blocks worth a look: all in the first round, and where the chain of an object grew, since the index has no load under its object. A prim is where something
// is thrown.
fn blocks(index: &Index, notes: &Notes) -> u64 {
    let grown = &notes.grown;
    if notes.round.is_first() || !sets::is_empty(true, grown.objects) {
        return u64::MAX;
    }
    let names = if grown.prims {
        words::join(grown.names, BY_PRIM)
    } else {
        grown.names
    };
    words::join(
        index.blocks_of(bytes_grew(grown)),
        index.blocks_named(names),
    )
}

// A round that begins.
pub fn begun(index: &Index, notes: &Notes) -> Scan {
    let marked = Set {
        a: blocks(index, notes),
        b: 0,
        c: 0,
        d: 0,
    };
    Scan::of(marked, 8, u64::MAX, u64::MAX)
}

// The place of the next record of the round that is worth a look. It goes by `notes.grown.chains`, which `begin_round` of the crate growth sets.
pub fn next_noted(scan: &mut Scan, view: &View, index: &Index, notes: &mut Notes) -> Option<usize> {
    scan.find(&index.starts, |at| {
        wakes(view, notes, Record::at(view.file, at))
    })
}

// The same for notes in which what grew was put down by hand: `chains` need not say so then, and each look asks the sets.
pub fn next(scan: &mut Scan, view: &View, index: &Index, notes: &mut Notes) -> Option<usize> {
    notes.grown.chains = true;
    next_noted(scan, view, index, notes)
}

#[cfg(test)]
mod tests {
    use super::*;
    use crate::next::Place;
    use host::Host;
    use indexing::bytes::put;
    use indexing::position::Position;
    use rows::TABLE_WORDS;

    // A load whose object is variable 6: that this holds a label whose chain grew is put down by hand, and `chains` does not say so.
    #[test]
    fn a_load_is_found_by_what_was_put_down(rt: HostRuntime) {
        let table = [0u64; TABLE_WORDS];
        let file = [17u8, 0, 5, 6, 3, 0];
        let sheet = sheet::fresh(false);
        let host = Host::new(&sheet);
        let view = View {
            wide: false,
            t: &table,
            file: &file,
            host: &host,
        };
        let mut index = Index::none(false);
        index.starts.set(0);
        let mut notes = Notes::nothing(None);
        notes.round.begin();
        notes.round.begin();
        let mut round = begun(&index, &notes);
        assert_eq!(rt; next(&mut round, &view, &index, &mut notes), None);

        notes.grown.chains = false;
        put(&mut notes.grown.objects, 6);
        let mut round = begun(&index, &notes);
        assert_eq!(rt; next_noted(&mut round, &view, &index, &mut notes), None);
        let mut round = begun(&index, &notes);
        assert_eq!(rt; next(&mut round, &view, &index, &mut notes), Some(0));

        notes.grown.chains = false;
        let mut place = Place::start();
        place.begin_round(&index, &notes);
        assert!(rt; place.next_noted(&view, &index, &mut notes).is_none());
        let mut place = Place::start();
        place.begin_round(&index, &notes);
        let found = place.next(&view, &index, &mut notes);
        assert!(rt; matches!(found.map(|f| f.position), Some(Position::Record(0))));
    }
}
