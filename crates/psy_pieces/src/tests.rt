//! Pieces of files, and what comes when calls fail.
use crate::ShelfReel;
use psy_base::Text;
use psy_door::{Failed, ShelfMap};
use psy_reel::{BeginFault, Reel};
use std::alloc::Global;
use std::test::Fail;

fn shelf(alloc: Global) -> Result<ShelfMap, Fail> {
    let mut files = Vec::new(alloc);
    files.push((
        Text::from_bytes(alloc, b"short")?,
        Vec::from_slice(alloc, b"text")?,
    ))?;
    Ok(ShelfMap::new(files, Vec::new(alloc)))
}

#[test]
fn pieces_come_in_their_order(rt: HostRuntime) -> Result<(), Fail> {
    let alloc = rt.alloc();
    let mut reel = ShelfReel::new(alloc, shelf(alloc)?, 3, Vec::from_slice(alloc, &[3u32])?);
    let mut piece = [b'.'; 8];
    assert_eq!(rt; reel.begin(alloc, "absent"), Err(BeginFault::Failed));
    assert_eq!(rt; reel.begin(alloc, "short"), Ok(()));
    let cases = [
        (Ok(3), b"tex".as_slice()),
        (Ok(1), b"t".as_slice()),
        (Ok(0), b"".as_slice()),
        (Err(Failed), b"".as_slice()),
        (Ok(0), b"".as_slice()),
    ];
    for (want, text) in cases {
        assert_eq!(rt; reel.next_piece(&mut piece), want);
        assert_eq!(rt; &piece[..text.len()], text);
    }
    assert_eq!(rt; reel.begin(alloc, "short"), Ok(()));
    assert_eq!(rt; reel.next_piece(&mut piece), Ok(3));
    Ok(())
}
