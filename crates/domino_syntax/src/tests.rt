use super::*;
use domino_tree::print;
use std::alloc::{AllocError, Global};
use std::test::Fail;

/// The text of a refusal: its number, and what it keeps.
fn put_fault(out: &mut String, fault: &TextFault) -> Result<(), Fail> {
    match fault {
        TextFault::TooLong(bytes) => write!(out, "1 {bytes}")?,
        TextFault::BadToken(at) => write!(out, "2 {at}")?,
        TextFault::Syntax(at) => write!(out, "3 {at}")?,
        TextFault::TooDeep(at) => write!(out, "4 {at}")?,
        TextFault::NoMemory => out.push_str("no memory")?,
    }
    Ok(())
}

/// The canonical text of what is read, or the refusal.
fn answer(alloc: Global, text: &str) -> Result<String, Fail> {
    let mut out = String::new(alloc);
    match read_program(alloc, text.as_bytes()) {
        Ok(program) => {
            for b in print(alloc, &program)?.iter() {
                out.push(char::from(*b))?;
            }
        }
        Err(fault) => put_fault(&mut out, &fault)?,
    }
    Ok(out)
}

/// A program whose field `p.a` is set to this expression, of which the first token is token 20.
fn assigning(alloc: Global, expression: &str) -> Result<String, AllocError> {
    let mut text = String::new(alloc);
    text.push_str("struct P{int a;};void f(struct P p){p.a=")?;
    text.push_str(expression)?;
    text.push_str(";}")?;
    Ok(text)
}

/// A program of these statements, of which the first token is token 16.
fn executing(alloc: Global, statements: &str) -> Result<String, AllocError> {
    let mut text = String::new(alloc);
    text.push_str("struct P{int a;};void f(struct P p){")?;
    text.push_str(statements)?;
    text.push('}')?;
    Ok(text)
}

/// The tokens of a whole program.
const WHOLE: [&str; 35] = [
    "struct", "Packet", "{", "int", "sport", ";", "int", "n", ";", "}", ";", "int", "c", ";",
    "void", "count", "(", "struct", "Packet", "p", ")", "{", "c", "=", "c", "+", "1", ";", "p",
    ".", "n", "=", "c", ";", "}",
];

#[test]
fn misses_each_token(rt: HostRuntime) -> Result<(), Fail> {
    for missing in 0..WHOLE.len() {
        let mut text = String::new(rt.alloc());
        for (i, token) in WHOLE.iter().enumerate() {
            if i != missing {
                text.push_str(token)?;
                text.push(' ')?;
            }
        }
        // Without the struct's name in the function's head the packet's name is taken for it.
        let place = if missing == 18 { 19 } else { missing };
        let want = format!(in rt.alloc(); "3 {place}")?;
        assert_eq!(rt;
            answer(rt.alloc(), &text)?.as_str(),
            want.as_str(),
            "without {missing}"
        );
    }
    Ok(())
}

/// So many of one text, a text between, and so many of another.
fn nested(
    alloc: Global,
    count: usize,
    open: &str,
    inner: &str,
    close: &str,
) -> Result<String, AllocError> {
    let mut text = String::new(alloc);
    for _turn in 0..count {
        text.push_str(open)?;
    }
    text.push_str(inner)?;
    for _turn in 0..count {
        text.push_str(close)?;
    }
    Ok(text)
}

/// Whether a program is read whose field is set to this expression.
fn is_read(alloc: Global, expression: &str) -> Result<bool, AllocError> {
    let text = assigning(alloc, expression)?;
    Ok(read_program(alloc, text.as_bytes()).is_ok())
}

/// What stands before and behind an operand, and the answer where it stands there 64 times.
const HEAVY: [(&str, &str, &str); 10] = [
    ("(", ")", "4 83"),
    ("c[", "]", "4 147"),
    ("f(", ")", "4 147"),
    ("-", "", "4 83"),
    ("!", "", "4 83"),
    ("~", "", "4 83"),
    ("a+", "", "4 147"),
    ("a||", "", "4 147"),
    ("a?b:", "", "4 273"),
    ("", "*a", "4 147"),
];

#[test]
fn reads_expressions_of_weight_64(rt: HostRuntime) -> Result<(), Fail> {
    for (open, close, _answer) in HEAVY {
        let most = nested(rt.alloc(), 63, open, "a", close)?;
        assert!(rt; is_read(rt.alloc(), &most)?, "63 of {open}");
    }
    Ok(())
}

#[test]
fn refuses_expressions_of_weight_65(rt: HostRuntime) -> Result<(), Fail> {
    for (open, close, want) in HEAVY {
        let more = nested(rt.alloc(), 64, open, "a", close)?;
        let text = assigning(rt.alloc(), &more)?;
        assert_eq!(rt; answer(rt.alloc(), &text)?.as_str(), want, "64 of {open}");
    }
    Ok(())
}

#[test]
fn refuses_blocks_of_weight_65(rt: HostRuntime) -> Result<(), Fail> {
    for (open, want) in [("if(a){", "4 332"), ("if(a){}else{", "4 521")] {
        let more = nested(rt.alloc(), 64, open, "", "}")?;
        let text = executing(rt.alloc(), &more)?;
        assert_eq!(rt; answer(rt.alloc(), &text)?.as_str(), want, "64 of {open}");
    }
    Ok(())
}

/// A sum of so many operators in so many brackets.
fn deep_sum(alloc: Global, depth: usize, operators: usize) -> Result<String, AllocError> {
    let sum = nested(alloc, operators, "", "a", "+a")?;
    nested(alloc, depth, "(", &sum, ")")
}

#[test]
fn weighs_operators_at_each_depth(rt: HostRuntime) -> Result<(), Fail> {
    for depth in 0..64 {
        let most = deep_sum(rt.alloc(), depth, 63 - depth)?;
        assert!(rt; is_read(rt.alloc(), &most)?, "at depth {depth}");
    }
    Ok(())
}

#[test]
fn finds_an_operator_too_many_at_each_depth(rt: HostRuntime) -> Result<(), Fail> {
    for depth in 0..64 {
        let more = deep_sum(rt.alloc(), depth, 64 - depth)?;
        let text = assigning(rt.alloc(), &more)?;
        let want = format!(in rt.alloc(); "4 {}", 147 - depth)?;
        assert_eq!(rt;
            answer(rt.alloc(), &text)?.as_str(),
            want.as_str(),
            "at depth {depth}"
        );
    }
    Ok(())
}

#[test]
fn counts_anew_after_a_statement(rt: HostRuntime) -> Result<(), Fail> {
    let statement = nested(rt.alloc(), 63, "", "p.a=a", "+a")?;
    let ended = nested(rt.alloc(), 1, &statement, ";", "")?;
    let body = nested(rt.alloc(), 3, &ended, "", "")?;
    let text = executing(rt.alloc(), &body)?;
    assert!(rt; read_program(rt.alloc(), text.as_bytes()).is_ok());
    Ok(())
}

#[test]
fn reads_brackets_of_all_kinds(rt: HostRuntime) -> Result<(), Fail> {
    // Brackets and operators within one another, 63 together.
    let inner = nested(rt.alloc(), 3, "(", "a", ")")?;
    let value = nested(rt.alloc(), 15, "(c[f(-", &inner, ")])")?;
    assert!(rt; is_read(rt.alloc(), &value)?);
    Ok(())
}

/// So many brackets around a value that is assigned within so many blocks.
fn deep_statement(alloc: Global, blocks: usize, brackets: usize) -> Result<String, AllocError> {
    let mut inner = String::new(alloc);
    inner.push_str("p.a=")?;
    for _turn in 0..brackets {
        inner.push('(')?;
    }
    inner.push('a')?;
    for _turn in 0..brackets {
        inner.push(')')?;
    }
    inner.push(';')?;
    nested(alloc, blocks, "if(a){", &inner, "}")
}

#[test]
fn reads_brackets_in_blocks(rt: HostRuntime) -> Result<(), Fail> {
    for blocks in 0..64 {
        let body = deep_statement(rt.alloc(), blocks, 63 - blocks)?;
        let text = executing(rt.alloc(), &body)?;
        let read = read_program(rt.alloc(), text.as_bytes());
        assert!(rt; read.is_ok(), "in {blocks} blocks");
    }
    Ok(())
}

/// A program with spaces behind it, so many bytes together.
fn padded(alloc: Global, bytes: usize) -> Result<String, AllocError> {
    let mut text = executing(alloc, "")?;
    for _turn in text.len()..bytes {
        text.push(' ')?;
    }
    Ok(text)
}

#[test]
fn reads_a_text_of_full_length(rt: HostRuntime) -> Result<(), Fail> {
    let text = padded(rt.alloc(), 65536)?;
    assert_eq!(rt; text.len(), 65536);
    assert!(rt; read_program(rt.alloc(), text.as_bytes()).is_ok());
    Ok(())
}

#[test]
fn refuses_a_byte_more(rt: HostRuntime) -> Result<(), Fail> {
    let text = padded(rt.alloc(), 65537)?;
    assert_eq!(rt; answer(rt.alloc(), &text)?.as_str(), "1 65537");
    Ok(())
}
