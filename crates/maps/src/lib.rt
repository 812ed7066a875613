// The presence map: 129 places, each present or absent, and two numbers: how many are present, and the highest present one. Only this file
// looks into its array. Its loops go by index: with iterators and the array's `map`, which proved, restore took 1.6 to 3.4 of the time at short shapes.
#![tactic(auto)]

ghost use Rattle.std.specs.Prelude.{◌≡◌, Bool, true, false, cond, List, ◌↔◌, ◌+◌, ◌≤◌, ◌<◌, ltb, length, set};
ghost use Rattle.parity.specs.Sum.{count};
ghost use Rattle.parity.specs.Presence.{present};
ghost use Rattle.maps.specs.Absent.{Counts};
ghost use Rattle.maps.specs.Truth.{Highest, TrueMap, HighestFrom};
ghost use Rattle.maps.specs.Tops.{Topped};
ghost use Rattle.maps.specs.Maps.{New, OfPlaces, OfBytes, AsBytes, TellsTruth, MarkedAs, Marks, JudgesPlace, FindsGaps, FindsStrays};

use refusals::Refusal;

// `present` is how many places are present, and `highest` the highest of them; 129 stands for none. Anybody may read and set these two numbers, so a map may
// lie: they are then not what its places say. Every call refuses such a map. So `highest` is a number and no Option: C is handed it, and a map may name any.
#[derive(Clone, Copy, Debug, PartialEq, Eq)]
pub struct Map {
    places: [bool; 129],
    pub present: usize,
    pub highest: usize,
}

// How many places are absent, and the two lowest of them; 129 stands for none, as it does for C, to which these numbers are handed (`NthAbsent`).
#[derive(Clone, Copy, Debug, PartialEq, Eq)]
pub struct Gaps {
    pub count: usize,
    pub first: usize,
    pub second: usize,
}

impl Gaps {
    // What was counted below a place, and then that place: it is there, or absent.
    fn counted(self, place: usize, there: bool) -> Self
        requires { self.count < 129 }
        ensures { (map : List Bool) → Counts place map self → present map place ≡ there → Counts (place + 1) map result }
    {
        if there {
            return self;
        }
        let count = self.count;
        if count == 0 {
            return Self {
                count: 1,
                first: place,
                second: self.second,
            };
        }
        if count == 1 {
            return Self {
                count: 2,
                first: self.first,
                second: place,
            };
        }
        Self {
            count: count + 1,
            first: self.first,
            second: self.second,
        }
    }
}

// The absent places below n.
fn find_gaps(places: [bool; 129], n: usize) -> Gaps
    requires { n ≤ 129 }
    ensures { Counts n places result }
{
    let mut gaps = Gaps {
        count: 0,
        first: 129,
        second: 129,
    };
    for t in 0..n {
        let there = places[t];
        gaps = gaps.counted(t, there);
    }
    gaps
}

// How many places are present.
fn count_present(places: [bool; 129]) -> usize
    ensures { result ≡ count 129 (present places) }
{
    let mut c: u8 = 0;
    for t in 0..129 {
        c += places[t] as u8;
    }
    c as usize
}

// The larger of two numbers.
fn larger(x: u8, y: u8) -> u8
    ensures { result ≡ cond (ltb x y) y x }
{
    if x < y { y } else { x }
}

// One more than the highest present place, and 0 where none is present. Each present place gives one more than its number, and the largest is kept, which is
// faster than to look from the last place down.
fn find_top(places: [bool; 129]) -> u8
    ensures { Topped 129 places result }
{
    let mut top: u8 = 0;
    for t in 0..129 {
        top = larger(top, places[t] as u8 * (t as u8 + 1));
    }
    top
}

// The highest present place; 129 where none is present.
fn find_highest(places: [bool; 129]) -> usize
    ensures { Highest places result }
{
    let top = find_top(places);
    if top == 0 {
        return 129;
    }
    top as usize - 1
}

// The highest present place after a place is marked present, where it was `highest` before.
fn higher(highest: usize, place: usize) -> usize
    ensures { (places : List Bool) → Highest places highest → place < length places → place < 129 → Highest (set places place true) result }
{
    if highest == 129 {
        return place;
    }
    if highest < place {
        return place;
    }
    highest
}

impl Map {
    // A new map: every place is absent.
    pub fn new() -> Self
        ensures { New result }
    {
        Self {
            places: [false; 129],
            present: 0,
            highest: 129,
        }
    }

    // A map of these places and of any two numbers: it lies where the places do not say them.
    pub fn of_parts(places: [bool; 129], present: usize, highest: usize) -> Self
        ensures { result ≡ record { places = places; present = present; highest = highest } }
    {
        Self {
            places,
            present,
            highest,
        }
    }

    // The true map of these places.
    pub fn of_places(places: [bool; 129]) -> Self
        ensures { OfPlaces places result }
    {
        let present = count_present(places);
        let highest = find_highest(places);
        Self::of_parts(places, present, highest)
    }

    // The true map that 129 bytes give: 1 is present, any other byte is absent.
    pub fn of_bytes(bytes: &[u8; 129]) -> Self
        ensures { OfBytes bytes.now result }
    {
        let mut places = [false; 129];
        for t in 0..129 {
            places[t] = bytes[t] == 1;
        }
        Self::of_places(places)
    }

    // The places in 129 bytes: 1 for present, 0 for absent.
    pub fn bytes(self) -> [u8; 129]
        ensures { AsBytes self result }
    {
        let places = self.places;
        let mut bytes: [u8; 129] = [0; 129];
        for t in 0..129 {
            bytes[t] = places[t] as u8;
        }
        bytes
    }

    // Whether the two numbers are what the places say.
    pub fn is_true(self) -> bool
        ensures { TellsTruth self result }
    {
        let places = self.places;
        let present = self.present;
        let highest = self.highest;
        if count_present(places) != present {
            return false;
        }
        find_highest(places) == highest
    }

    // A true map with a place marked present.
    fn with(mut self, place: usize) -> Self
        requires { TrueMap self × (place < 129) }
        ensures { MarkedAs true self place result }
    {
        if self.places[place] {
            return self;
        }
        self.places[place] = true;
        self.present += 1;
        self.highest = higher(self.highest, place);
        self
    }

    // A true map with a place marked absent. Where it was the highest, the next is found.
    fn without(mut self, place: usize) -> Self
        requires { TrueMap self × (place < 129) }
        ensures { MarkedAs false self place result }
    {
        if !self.places[place] {
            return self;
        }
        self.places[place] = false;
        self.present -= 1;
        if self.highest == place {
            self.highest = find_highest(self.places);
        }
        self
    }

    // `mark_present` and `mark_absent` stay two: one function that takes the state would test it again to choose between `with` and `without`, and is no plainer.

    // The map with a place marked present. A map that lies stays as it is, and so does any map where the place is 129 or more.
    pub fn mark_present(self, place: usize) -> Self
        ensures { Marks true self place result }
    {
        match self.judge_place(place) {
            Ok(()) => self.with(place),
            Err(_) => self,
        }
    }

    // The map with a place marked absent. A map that lies stays as it is, and so does any map where the place is 129 or more.
    pub fn mark_absent(self, place: usize) -> Self
        ensures { Marks false self place result }
    {
        match self.judge_place(place) {
            Ok(()) => self.without(place),
            Err(_) => self,
        }
    }

    // Whether that place can be marked, or why not.
    pub fn judge_place(self, place: usize) -> Result<(), Refusal>
        ensures { JudgesPlace self place result }
    {
        if !self.is_true() {
            return Err(Refusal::LyingMap);
        }
        if 129 <= place {
            return Err(Refusal::NoSuchColumn);
        }
        Ok(())
    }

    // Whether a place is marked present. A place of 129 or more is not.
    pub fn is_present(self, place: usize) -> bool
        ensures { result ≡ present self.places place }
    {
        if 129 <= place {
            return false;
        }
        self.places[place]
    }

    // The absent places below n, of the 129.
    pub fn gaps(self, n: usize) -> Gaps
        ensures { FindsGaps self n result }
    {
        let places = self.places;
        if 129 < n {
            return find_gaps(places, 129);
        }
        find_gaps(places, n)
    }

    // Whether a place from n on is present: the true map of these places tells it.
    pub fn strays(self, n: usize) -> bool
        ensures { FindsStrays self n result }
    {
        let places = self.places;
        reaches(Self::of_places(places), n)
    }
}

// Whether the highest place, as the map has it, is n or above.
pub fn reaches(map: Map, n: usize) -> bool
    ensures { (result ≡ true) ↔ HighestFrom n map }
{
    if map.highest == 129 {
        return false;
    }
    n <= map.highest
}
