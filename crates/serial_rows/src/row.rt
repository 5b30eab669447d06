//! Rows: a run with what it gives, and a phantom that is offered to a new pipe with what comes of it.

/// What a line says.
#[derive(Clone, Copy)]
pub enum Line<'a> {
    Run(Row<'a>),
    Offer(Offer<'a>),
}

/// What a line says, if it has the cells of a row.
pub fn line_of(line: &str) -> Option<Line<'_>> {
    match offer_of(line) {
        Some(offer) => Some(Line::Offer(offer)),
        None => Some(Line::Run(row_of(line)?)),
    }
}

/// What a line of four cells with tabs between them says.
#[derive(Clone, Copy)]
pub struct Row<'a> {
    /// How many pipelines there are, the window, the length of a round, and the seed.
    pub numbers: [u32; 4],
    /// The text of the program.
    pub text: &'a str,
    /// The packets, with spaces between them: each as its source port, its destination port, and how many microseconds after
    /// the first second it comes, with commas between them.
    pub packets: &'a str,
    /// What is wanted: the fields of each packet, each with a comma behind it, and after a bar the cells.
    pub want: &'a str,
}

// The row of a line, if it has the cells of one.
fn row_of(line: &str) -> Option<Row<'_>> {
    let mut cells = line.split('\t');
    let numbers = numbers_of(cells.next()?)?;
    let text = cells.next()?;
    let packets = cells.next()?;
    let want = cells.next()?;
    Some(Row {
        numbers,
        text,
        packets,
        want,
    })
}

/// What a line of five cells with tabs between them says.
#[derive(Clone, Copy)]
pub struct Offer<'a> {
    /// How many pipelines there are, the window, and the length of a round.
    pub numbers: [u32; 3],
    /// The text of the program.
    pub text: &'a str,
    /// The packets, as in a row.
    pub packets: &'a str,
    /// The arrival whose phantom is offered.
    pub arrival: u32,
    /// The pipe that it is offered to.
    pub to: u32,
    /// What is wanted: `taken`, or `held` with the arrival and the places that come back.
    pub want: &'a str,
}

// The offer of a line, if it has the cells of one.
fn offer_of(line: &str) -> Option<Offer<'_>> {
    let mut cells = line.split('\t');
    let numbers = numbers_of(cells.next()?)?;
    let text = cells.next()?;
    let packets = cells.next()?;
    let (arrival, to) = cells.next()?.split_once(" to ")?;
    let want = cells.next()?;
    Some(Offer {
        numbers,
        text,
        packets,
        arrival: arrival.parse().ok()?,
        to: to.parse().ok()?,
        want,
    })
}

// So many numbers with spaces between them.
fn numbers_of<const N: usize>(cell: &str) -> Option<[u32; N]> {
    let mut words = cell.split(' ');
    let mut numbers = [0; N];
    for number in numbers.iter_mut() {
        *number = words.next()?.parse().ok()?;
    }
    Some(numbers)
}

/// What is written of a packet.
#[derive(Clone, Copy)]
pub struct Frame {
    pub sport: u16,
    pub dport: u16,
    pub micros: u32,
}

/// The packet that a cell's word says, if it says one.
pub fn frame_of(word: &str) -> Option<Frame> {
    let (sport, rest) = word.split_once(',')?;
    let (dport, micros) = rest.split_once(',')?;
    Some(Frame {
        sport: sport.parse().ok()?,
        dport: dport.parse().ok()?,
        micros: micros.parse().ok()?,
    })
}
