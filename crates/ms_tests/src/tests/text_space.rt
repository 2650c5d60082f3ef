//! A space of indices with ample memory.

ghost use Rattle.std.specs.Prelude.{◌<◌};

use ms_text_lex::{Kind, Token};
use ms_text_names::Space;
use std::test::Fail;

fn identifier(at: usize) -> Option<Token>
    requires { at < 100 }
{
    Some(Token {
        kind: Kind::Id,
        at,
        end: at + 2,
    })
}

#[test]
fn the_first_entry_has_the_identifier(rt: HostRuntime) -> Result<(), Fail> {
    let mut space = Space::new(rt.alloc(), b"$a$b$a");
    assert!(rt; !space.add(None)?);
    assert!(rt; !space.add(identifier(0))?);
    assert!(rt; space.add(identifier(4))?);
    assert_eq!(rt; space.len(), 3);
    let b = Token {
        kind: Kind::Id,
        at: 2,
        end: 4,
    };
    let a = Token {
        kind: Kind::Id,
        at: 4,
        end: 6,
    };
    assert_eq!(rt; space.find(a), Some(1));
    assert_eq!(rt; space.find(b), None);
    Ok(())
}
