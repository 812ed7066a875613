// Makes maps of places and of any two numbers, most of which lie, asks with them each call of evenodd that takes a map, and prints what the library answers,
// one line each. What is printed is compared with the stored text.
#![tactic(auto)]

mod asking;
mod calls;
mod cases;
mod marking;
mod words;

// Prints a page up to where its text ends.
fn print(page: &words::Page, end: usize) {
    let text = &page[..];
    if end <= text.len() {
        io::write_all(1, &text[0..end]);
    }
}

fn main() {
    let mut out = [0u8; 65536];
    let a = cases::five_present(&mut out, 0);
    let b = cases::none_present(&mut out, a);
    let c = cases::columns_off(&mut out, b);
    let d = cases::last_place(&mut out, c);
    let e = cases::restore_faults(&mut out, d);
    let f = cases::show_faults(&mut out, e);
    let end = marking::one_by_one(&mut out, f);
    print(&out, end);
}
