use devices::{Card, Hopper};
use hoppers::{Leftover, LineHopper, LongLine, Tray};

#[test]
fn lines_are_cards(rt: HostRuntime) {
    assert_eq!(rt; LineHopper::new(b"").feed(), Ok(None));
    let mut cut = LineHopper::new(b"\nA");
    let mut columns = [b' '; 80];
    assert_eq!(rt; cut.feed(), Ok(Some(Card { columns })));
    columns[0] = b'A';
    assert_eq!(rt;
        cut.feed(),
        Ok(Some(Card { columns })),
        "the last line lacks its end"
    );
    assert_eq!(rt; cut.feed(), Ok(None));
}

#[test]
fn lines_fit_on_a_card(rt: HostRuntime) {
    let columns = [b'x'; 80];
    let mut fits = LineHopper::new(&[b'x'; 80]);
    assert_eq!(rt; fits.feed(), Ok(Some(Card { columns })));
    let mut long = LineHopper::new(&[b'x'; 81]);
    let fault = LongLine {
        line: 1,
        length: 81,
    };
    assert_eq!(rt; long.feed(), Err(fault));
    assert_eq!(rt; long.feed(), Err(fault), "a fault stays");
}

#[test]
fn trays_tell_a_rest(rt: HostRuntime) {
    assert_eq!(rt; Tray::new(b"").feed(), Ok(None));
    let columns = [b'x'; 80];
    let mut one_more = Tray::new(&[b'x'; 81]);
    assert_eq!(rt; one_more.feed(), Ok(Some(Card { columns })));
    assert_eq!(rt; one_more.feed(), Err(Leftover { length: 1 }));
    let mut one_less = Tray::new(&[b'x'; 79]);
    assert_eq!(rt; one_less.feed(), Err(Leftover { length: 79 }));
}
