// The columns of a shape, where every one of them is there.
ghost use Rattle.std.specs.Prelude.{◌≡◌, ◌↔◌, true, ◌+◌, ◌<◌};
ghost use Rattle.judging.specs.Shown.{Held, ShownZeros, IsShown};

use evenodd::{Map, Shape};

// A stripe and a bench that hold every column of a shape: the stripe those that the map has, and the bench the others, where restore puts them. Show refuses
// none of them.
#[derive(Clone, Copy)]
pub struct Columns<'a> {
    pub shape: Shape,
    pub map: Map,
    pub stripe: &'a [u8],
    pub bench: &'a [u8],
    ghost held: { Held shape.m shape.k shape.b map stripe.now bench.now },
}

impl<'a> Columns<'a> {
    // Column t, from where show finds it.
    pub fn column(self, t: usize) -> &'a [u8]
        requires { t < self.shape.k + 2 }
        ensures { IsShown self.entry.shape.m self.entry.shape.b self.entry.map.places self.entry.stripe.now self.entry.bench.now t result.now }
    {
        evenodd::show(self.shape, self.map, self.stripe, self.bench, t)
    }

    // Whether every byte of each column is zero.
    pub fn is_blank(self) -> bool
        ensures { (result ≡ true) ↔ ShownZeros self.entry.shape.m self.entry.shape.k self.entry.shape.b self.entry.map.places self.entry.stripe.now self.entry.bench.now }
    {
        // t is the column's number, which show is asked for: no iterator is plainer.
        for t in 0..self.shape.k + 2 {
            if !cells::is_zero(self.column(t)) {
                return false;
            }
        }
        true
    }
}
