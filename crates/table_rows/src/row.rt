//! A row: a question, a program and a header, and the answer.

/// What a line of five cells with tabs between them says.
#[derive(Clone, Copy)]
pub struct Row<'a> {
    /// What is asked.
    pub word: &'a str,
    /// What is declared before the packet's struct.
    pub items: &'a str,
    /// How often the transaction's body is written, and the body.
    pub times: u32,
    pub body: &'a str,
    /// The header's x, y and n.
    pub header: [i32; 3],
    /// The answer that is wanted.
    pub want: &'a str,
}

/// Whether a line is a row. Empty lines, and comments, which begin with `#`, are none.
pub fn is_row(line: &str) -> bool {
    !line.is_empty() && !line.starts_with('#')
}

/// The row of a line, if it has the cells of one: the question, the items, the body, with `TIMES *` before it where it is
/// written more than once, the header's three numbers, and the answer.
pub fn row_of(line: &str) -> Option<Row<'_>> {
    let mut cells = line.split('\t');
    let word = cells.next()?;
    let items = cells.next()?;
    let (times, body) = body_of(cells.next()?);
    let header = header_of(cells.next()?)?;
    let want = cells.next()?;
    Some(Row {
        word,
        items,
        times,
        body,
        header,
        want,
    })
}

// A body with the number before it: 1 where there is none.
fn body_of(cell: &str) -> (u32, &str) {
    if let Some((front, body)) = cell.split_once(" * ") {
        if let Ok(times) = front.parse() {
            return (times, body);
        }
    }
    (1, cell)
}

// Three numbers with spaces between them.
fn header_of(cell: &str) -> Option<[i32; 3]> {
    let mut words = cell.split_whitespace();
    let x = words.next()?.parse().ok()?;
    let y = words.next()?.parse().ok()?;
    let n = words.next()?.parse().ok()?;
    Some([x, y, n])
}
