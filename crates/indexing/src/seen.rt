// What the readers of each variable have been used for: a set of labels for each variable, a word of it in each of four arrays, since none may be longer than
// 256 words. What a variable holds beyond that is new to them. Nothing is promised.
use crate::view::View;
use sets::Set;

// The second to fourth words, which sets of the edition of 64 labels do not have.
#[derive(Drop)]
pub struct HighWords {
    b: [u64; 256],
    c: [u64; 256],
    d: [u64; 256],
}

impl HighWords {
    pub fn none() -> HighWords {
        HighWords {
            b: [0; 256],
            c: [0; 256],
            d: [0; 256],
        }
    }

    // The set of variable v, with its first word.
    fn after(&self, a: u64, v: u8) -> Set {
        let i = usize::from(v);
        Set {
            a,
            b: self.b[i],
            c: self.c[i],
            d: self.d[i],
        }
    }
}

// The high words are lent where sets have them: in the small edition their room on the stack would be for nothing.
#[derive(Drop)]
pub struct Seen<'a> {
    a: [u64; 256],
    high: Option<&'a mut HighWords>,
}

impl<'a> Seen<'a> {
    pub fn nothing(high: Option<&'a mut HighWords>) -> Self {
        Seen { a: [0; 256], high }
    }

    // The labels that the readers of variable v have been used for.
    fn labels(&self, v: u8) -> Set {
        let a = self.a[usize::from(v)];
        match &self.high {
            Some(high) => high.after(a, v),
            None => Set {
                a,
                b: 0,
                c: 0,
                d: 0,
            },
        }
    }

    // What is new to them.
    pub fn news(&self, view: &View, v: u8) -> Set {
        sets::without(view.wide, view.held(v), self.labels(v))
    }

    // They are being used for all that it holds.
    pub fn see(&mut self, view: &View, v: u8) {
        let s = view.held(v);
        let i = usize::from(v);
        self.a[i] = s.a;
        if let Some(high) = &mut self.high {
            high.b[i] = s.b;
            high.c[i] = s.c;
            high.d[i] = s.d;
        }
    }

    // The same for every variable.
    pub fn see_all(&mut self, view: &View) {
        for v in 0..=255u8 {
            self.see(view, v);
        }
    }
}
