//! Files of the system, piece by piece.
use crate::{BeginFault, FileReel, Reel, TextReel};
use psy_door::{Failed, Shelf};
use std::fs;
use std::test::Fail;

#[test]
fn a_file_of_the_system_is_read_again(rt: HostRuntime) -> Result<(), Fail> {
    fs::write(&rt, "reeled.txt", "text")?;
    let mut reel = FileReel::new(&rt);
    let mut piece = [b'.'; 8];
    assert_eq!(rt; reel.next_piece(&mut piece), Err(Failed));
    assert_eq!(rt;
        reel.begin(rt.alloc(), "absent.txt"),
        Err(BeginFault::Failed)
    );
    for _ in 0..2 {
        assert_eq!(rt; reel.begin(rt.alloc(), "reeled.txt"), Ok(()));
        assert_eq!(rt; reel.next_piece(&mut piece), Ok(4));
        assert_eq!(rt; &piece[..4], b"text".as_slice());
        assert_eq!(rt; reel.next_piece(&mut piece), Ok(0));
    }
    assert_eq!(rt; reel.begin(rt.alloc(), "."), Ok(()));
    assert_eq!(rt; reel.next_piece(&mut piece), Err(Failed));
    fs::remove_file(&rt, "reeled.txt")?;
    Ok(())
}

#[test]
fn a_text_is_a_file(rt: HostRuntime) -> Result<(), Fail> {
    let mut reel = TextReel::new("a", b"text");
    let mut piece = [b'.'; 3];
    for _ in 0..2 {
        assert_eq!(rt; reel.begin(rt.alloc(), "a"), Ok(()));
        assert_eq!(rt; reel.next_piece(&mut piece), Ok(3));
        assert_eq!(rt; &piece, b"tex");
        assert_eq!(rt; reel.next_piece(&mut piece), Ok(1));
        assert_eq!(rt; reel.next_piece(&mut piece), Ok(0));
    }
    assert_eq!(rt; reel.begin(rt.alloc(), "b"), Ok(()));
    assert_eq!(rt; reel.next_piece(&mut piece), Ok(0));
    assert_eq!(rt;
        reel.fetch_most(rt.alloc(), "a", 4)?.as_slice(),
        b"text".as_slice()
    );
    Ok(())
}
