//! Texts with the heights of their trees, or their faults, worked out by hand. Where it matters which tree it is, one of
//! two parts is high, so that each other tree has another height.

use c_lex::lex;
use c_parse::{CParse, parse};
use std::alloc::{AllocError, Global};
use std::test::Fail;

#[derive(Clone, Copy)]
enum Want {
    Height(usize),
    Syntax(usize),
    TooDeep(usize),
}

/// Whether a text is parsed so.
fn parses(alloc: Global, text: &[u8], want: Want) -> bool {
    let Ok(tokens) = lex(alloc, text) else {
        return false;
    };
    match parse(alloc, tokens.as_slice(), text.len()) {
        Ok(unit) => matches!(want, Want::Height(n) if n == unit.height()),
        Err(CParse::Syntax { at }) => matches!(want, Want::Syntax(n) if n == at),
        Err(CParse::TooDeep { at }) => matches!(want, Want::TooDeep(n) if n == at),
        Err(CParse::Memory) => false,
    }
}

#[test]
fn texts_with_their_heights_and_faults(rt: HostRuntime) {
    let table = [
        (b"".as_slice(), Want::Height(0)),
        (b"int a;unsigned long int b;", Want::Height(1)),
        (b"int a=1-2-((3));", Want::Height(4)),
        (b"int a=1+2*((3));", Want::Height(5)),
        (b"int a=b=c=((1));", Want::Height(5)),
        (b"int a=1?2:3?4:((5));", Want::Height(5)),
        (b"int a=(b)+((1));", Want::Height(4)),
        (b"int a=(int)+((1));", Want::Height(5)),
        (b"int a=sizeof(int)*((1));", Want::Height(4)),
        (b"int a=b.c->d[\"x\"](1,'2')++;", Want::Height(6)),
        (b"int*(*f[3])(int,char*);", Want::Height(6)),
        (b"void f(int a,char(*)[2]);", Want::Height(4)),
        (b"int a[2]={1,{2},},b;", Want::Height(3)),
        (b"struct s{int a;struct t{char b[1];}c;};", Want::Height(2)),
        (b"void f(void){if(1)if(2);else{;}}", Want::Height(5)),
        (b"int f(){for(int i=0;i<9;i++){continue;}}", Want::Height(4)),
        (b"int main(void){return 7}", Want::Syntax(23)),
        (b"int a", Want::Syntax(5)),
        (b"int a;1", Want::Syntax(6)),
        (b"char long a;", Want::Syntax(5)),
        (b"int a=1+2=3;", Want::Syntax(9)),
        (b"int a=sizeof(int)[0];", Want::Syntax(17)),
        (b"int a=sizeof(int b);", Want::Syntax(17)),
        (b"int a={};", Want::Syntax(7)),
        (b"void f(void){if(1);else;else;}", Want::Syntax(24)),
    ];
    for (text, want) in table {
        assert!(rt; parses(rt.alloc(), text, want));
    }
}

/// `int a=` and so many parentheses round a constant.
fn nested(alloc: Global, depth: u8) -> Result<Vec<u8>, AllocError> {
    let mut text = Vec::new(alloc);
    text.extend_from_slice(b"int a=")?;
    for _ in 0..depth {
        text.push(b'(')?;
    }
    text.push(b'1')?;
    for _ in 0..depth {
        text.push(b')')?;
    }
    text.push(b';')?;
    Ok(text)
}

#[test]
fn parentheses_up_to_the_greatest_height(rt: HostRuntime) -> Result<(), Fail> {
    let alloc = rt.alloc();
    let most = nested(alloc, 199)?;
    assert!(rt; parses(alloc, most.as_slice(), Want::Height(200)));
    let one_more = nested(alloc, 200)?;
    assert!(rt; parses(alloc, one_more.as_slice(), Want::TooDeep(205)));
    Ok(())
}
