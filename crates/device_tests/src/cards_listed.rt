use hoppers::{LineHopper, LongLine};
use line_tray::LineTray;
use listing::listing::{BadColumn, ListError, Listed, list_next, tear_off_all};
use std::test::Fail;

#[test]
fn each_answer_comes(rt: HostRuntime) -> Result<(), Fail> {
    let mut tray = LineTray::new(rt.alloc(), 1)?;
    let mut hopper = LineHopper::new(b"A\nB\tC");
    assert_eq!(rt; list_next(&mut hopper, &mut tray), Ok(Listed::Line));
    assert_eq!(rt; list_next(&mut hopper, &mut tray), Ok(Listed::NoRoom));
    tear_off_all(&mut tray);
    let bad = BadColumn { column: 2, byte: 9 };
    assert_eq!(rt;
        list_next(&mut hopper, &mut tray),
        Err(ListError::Column(bad))
    );
    assert_eq!(rt; list_next(&mut hopper, &mut tray), Ok(Listed::End));
    let mut long = LineHopper::new(&[b'x'; 81]);
    let fault = LongLine {
        line: 1,
        length: 81,
    };
    assert_eq!(rt;
        list_next(&mut long, &mut tray),
        Err(ListError::Fault(fault))
    );
    Ok(())
}
