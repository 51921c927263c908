//! A link that gives the frames of a text of lines, some of them capture lines.
ghost use Rattle.std.specs.Prelude.{◌≤◌, length};

use frame_links::link_board::nsaps::Target;
use frame_links::link_board::{Link, RecordedLink};

/// Lines of which the second and the last are capture lines.
const TEXT: &[u8] = b"# a comment\n8113\r\n\n811\n81 13\nzz\nAbCd01";

/// Whether a look sees a frame of these octets, from the SNPA 00 and through no group.
fn sees(link: &mut RecordedLink, buf: &mut [u8], octets: &[u8]) -> bool
    requires { 70000 ≤ length buf.old }
{
    match link.poll(buf) {
        Ok(Some(got)) => {
            !got.group
                && got.from.as_bytes() == [0].as_slice()
                && buf.get(..got.len) == Some(octets)
        }
        _ => false,
    }
}

#[test]
fn gives_the_frames_of_capture_lines(rt: HostRuntime) {
    let mut room = vec![in rt.alloc(); 0u8; 70_000].expect(&rt, "memory");
    let text = Vec::from_slice(rt.alloc(), TEXT).expect(&rt, "memory");
    let mut link = RecordedLink::new(text);
    assert!(rt; gives_both(&mut link, room.as_mut_slice()));
    assert!(rt; gives_nothing(&mut link, room.as_mut_slice()));
}

/// Whether looks see the frames of the two capture lines, and what is sent between them is taken.
fn gives_both(link: &mut RecordedLink, buf: &mut [u8]) -> bool {
    buf.len() >= 70_000
        && sees(link, buf, &[0x81, 0x13])
        && link.send(Target::Routers, b"any", b"thing").is_ok()
        && sees(link, buf, &[0xab, 0xcd, 0x01])
}

/// Whether two looks see nothing.
fn gives_nothing(link: &mut RecordedLink, buf: &mut [u8]) -> bool {
    buf.len() >= 70_000 && matches!(link.poll(buf), Ok(None)) && matches!(link.poll(buf), Ok(None))
}
