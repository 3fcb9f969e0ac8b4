// Four candidates offered in every order.
use crate::chooses::{after_offer, print_held};
use crate::drawn::Drawn;
use crate::generator::{Generator, Kind};
use std::io;

// Offers the candidates of four numbers one after the other, and writes the numbers and what is then held.
fn print_order(rt: &impl Print, drawn: &Drawn, order: [u8; 4]) -> io::Result<()> {
    let mut chooser = drawn.chooser();
    for number in order {
        chooser = after_offer(chooser, drawn.candidate(number));
    }
    let [a, b, c, d] = order;
    print!(rt; "order {a} {b} {c} {d}")?;
    print_held(rt, " held", chooser)
}

// Draws pixels of a kind, and offers four drawn candidates over them in every order: the digits to the base 4 of a byte, where no two of them
// are the same. The kind is cast, an enum's own number.
pub(crate) fn print_orders(rt: &impl Print, kind: Kind) -> io::Result<()> {
    let drawn = Drawn::new(&mut Generator::new(kind as u32), kind);
    for k in 0..=255u8 {
        let order = [k / 64, k / 16 % 4, k / 4 % 4, k % 4];
        if (0..4).all(|number| order.contains(&number)) {
            print_order(rt, &drawn, order)?;
        }
    }
    Ok(())
}
