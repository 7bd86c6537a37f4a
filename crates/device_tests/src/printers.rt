use devices::{Line, LineFault, Printer, Refusal};
use line_tray::LineTray;
use std::process::Abort;
use std::test::Fail;
use strip::Strip;

#[test]
fn a_place_is_used_again(rt: HostRuntime) -> Result<(), Fail> {
    assert_eq!(rt; LineTray::new(rt.alloc(), 0).err(), Some(Refusal::Small));
    let mut tray = LineTray::new(rt.alloc(), 1)?;
    let line = Line::new(256, 3, &[b'~'; 132])?;
    assert_eq!(rt; tray.print(&line), Ok(()));
    assert_eq!(rt; tray.print(&line), Err(Refusal::NoRoom));
    assert_eq!(rt; tray.tear_off(), Ok(line));
    assert_eq!(rt; tray.tear_off(), Err(Refusal::NoLine));
    assert_eq!(rt; tray.print(&line), Ok(()));
    Ok(())
}

#[test]
fn lines_keep_their_bounds(rt: HostRuntime) {
    let mut text = [b' '; 132];
    assert_eq!(rt; Line::new(257, 0, &text), Err(LineFault::Number));
    assert_eq!(rt; Line::new(256, 0, &text), Err(LineFault::Spacing));
    text[131] = 127;
    assert_eq!(rt;
        Line::new(256, 3, &text),
        Err(LineFault::Text { column: 132 })
    );
    assert_eq!(rt; Refusal::NoRoom.number(), Some(20));
}

#[test]
fn a_strip_holds_the_longest_line(rt: HostRuntime) -> Result<(), Fail> {
    assert_eq!(rt; Strip::new(rt.alloc(), 138).err(), Some(Refusal::Small));
    let mut strip = Strip::new(rt.alloc(), 139)?;
    let line = Line::new(256, 3, &[b'~'; 132])?;
    assert_eq!(rt; strip.print(&line), Ok(()));
    assert_eq!(rt; strip.bytes().len(), 139);
    assert_eq!(rt; strip.print(&line), Err(Refusal::NoRoom));
    assert_eq!(rt; strip.tear_off(), Ok(line));
    assert_eq!(rt; strip.tear_off(), Err(Refusal::NoLine));
    assert!(rt; strip.has_room(), "it starts at its front again");
    Ok(())
}

// A line of six bytes, whose blanks come back when it is torn off.
fn short_line(rt: &(impl Abort + AllocGlobal), size: usize) -> Result<bool, Fail> {
    let mut strip = Strip::new(rt.alloc(), size)?;
    let mut text = [b' '; 132];
    text[0] = b'A';
    let line = Line::new(1, 2, &text)?;
    assert_eq!(rt; strip.print(&line), Ok(()));
    assert_eq!(rt; strip.bytes(), &b"1,2,A\n"[..]);
    let room = strip.has_room();
    assert_eq!(rt; strip.tear_off(), Ok(line));
    Ok(room)
}

#[test]
fn room_is_for_the_longest_line(rt: HostRuntime) -> Result<(), Fail> {
    assert!(rt; !short_line(&rt, 140)?);
    assert!(rt; !short_line(&rt, 144)?);
    assert!(rt; short_line(&rt, 145)?);
    Ok(())
}
