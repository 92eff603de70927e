// How many labels each row of P and of T had when a round began.
use indexing::bytes::put;
use indexing::grown::Grown;
use indexing::view::View;

#[derive(Drop)]
pub struct Sizes {
    chains: [u16; 256],
    scopes: [u16; 256],
}

// Notes how many labels row l has; says whether that is another number than before.
fn resized(sizes: &mut [u16; 256], l: u8, size: u32) -> bool {
    let i = usize::from(l);
    let size = (size % 65536) as u16;
    let other = sizes[i] != size;
    sizes[i] = size;
    other
}

impl Sizes {
    pub fn none() -> Sizes {
        Sizes {
            chains: [0; 256],
            scopes: [0; 256],
        }
    }

    // Notes the labels whose chains grew, and the scopes in which more is thrown.
    pub fn note_grown(&mut self, view: &View, grown: &mut Grown) {
        for l in 0..=255u8 {
            if resized(&mut self.chains, l, sets::size(view.wide, view.chain(l))) {
                put(&mut grown.labels, l);
            }
            if resized(&mut self.scopes, l, sets::size(view.wide, view.thrown(l))) {
                put(&mut grown.scopes, l);
            }
        }
    }
}
