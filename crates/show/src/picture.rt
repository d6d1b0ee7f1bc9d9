// The drawing as a picture that a browser shows (SVG).
use crate::rows::{Row, Sort};
use device::mirror::Side;
use std::alloc::{AllocError, Global};
use std::fmt;
use std::fmt::Write;

// The height of a row, and where the columns stand.
const ROW: u32 = 22;

const ASKED: u32 = 10;

const NUMBER: u32 = 150;

const FIRST: u32 = 190;

const SECOND: u32 = 490;

const TOLD: u32 = 790;

const WIDTH: u32 = 1080;

// Where the heads of the columns stand, and where the rows begin below them.
const HEAD: u32 = 8;

const ROWS: u32 = 40;

const STYLE: &str =
    "<style>text{font:13px monospace}.asked{font-weight:bold}.number{fill:#888;text-anchor:end}\
.told{fill:#063}.struck{fill:#b00}.dead{fill:#aaa}circle.write{fill:#333}circle.dead{fill:none;stroke:#aaa}\
.disk{stroke:#99a;stroke-width:2}.power{stroke:#b00;stroke-width:2;stroke-dasharray:6 4}</style>";

// Text with the characters that mean something in a picture written out.
#[derive(Clone, Copy)]
struct Escaped<'a>(&'a str);

impl fmt::Display for Escaped<'_> {
    fn fmt<W: fmt::Write>(&self, f: &mut fmt::Formatter<W>) -> fmt::Result {
        for c in self.0.chars() {
            match c {
                '&' => f.write_str("&amp;")?,
                '<' => f.write_str("&lt;")?,
                '>' => f.write_str("&gt;")?,
                _ => f.write_char(c)?,
            }
        }
        Ok(())
    }
}

// Where a disk's column stands. A match and no pair of places: the heads of the columns use the same two names.
fn column(side: Side) -> u32 {
    match side {
        Side::First => FIRST,
        Side::Second => SECOND,
    }
}

// A picture that is drawn row by row.
#[derive(Drop)]
struct Svg {
    out: String,
    // Where the row begins that is drawn now.
    top: u32,
}

impl Svg {
    // Where the middle of the row's text is, in height.
    fn middle(&self) -> u32 {
        self.top.saturating_add(11)
    }

    // Text in the row, from here to the right.
    fn text(&mut self, x: u32, class: &str, text: &str) -> Result<(), AllocError> {
        let y = self.top.saturating_add(16);
        let text = Escaped(text);
        writeln!(
            self.out,
            "<text x=\"{x}\" y=\"{y}\" class=\"{class}\">{text}</text>"
        )
    }

    // A disk's bar beside the row, if the disk lives.
    fn bar(&mut self, row: &Row, side: Side) -> Result<(), AllocError> {
        if !row.living.has(side) {
            return Ok(());
        }
        let x = column(side);
        let top = self.top;
        let bottom = top.saturating_add(ROW);
        writeln!(
            self.out,
            "<line x1=\"{x}\" y1=\"{top}\" x2=\"{x}\" y2=\"{bottom}\" class=\"disk\"/>"
        )
    }

    // A write: a dot on the disk's bar, hollow where the disk is dead.
    fn write(
        &mut self,
        side: Side,
        number: u64,
        class: &str,
        text: &str,
    ) -> Result<(), AllocError> {
        let x = column(side);
        let y = self.middle();
        writeln!(
            self.out,
            "<circle cx=\"{x}\" cy=\"{y}\" r=\"5\" class=\"{class}\"/>"
        )?;
        let number = format!(in *self.out.allocator(); "{number}")?;
        self.text(NUMBER, "number", number.as_str())?;
        self.text(x.saturating_add(14), class, text)
    }

    // A line over both disks where power goes.
    fn power(&mut self, text: &str) -> Result<(), AllocError> {
        let y = self.middle();
        writeln!(
            self.out,
            "<line x1=\"{FIRST}\" y1=\"{y}\" x2=\"{WIDTH}\" y2=\"{y}\" class=\"power\"/>"
        )?;
        self.text(ASKED, "struck", text)
    }

    fn death(&mut self, side: Side, text: &str) -> Result<(), AllocError> {
        let x = column(side);
        self.text(x.saturating_sub(6), "struck", "✕")?;
        self.text(x.saturating_add(14), "struck", text)
    }

    // What the row shows beside the bars.
    fn content(&mut self, row: &Row) -> Result<(), AllocError> {
        let text = row.text.as_str();
        match row.sort {
            Sort::Asked => self.text(ASKED, "asked", text),
            Sort::Written { disk, number } => self.write(disk, number, "write", text),
            Sort::Unwritten { disk, number } => self.write(disk, number, "dead", text),
            Sort::Told => self.text(TOLD, "told", text),
            Sort::Power => self.power(text),
            Sort::Death(side) => self.death(side, text),
            Sort::Set => self.text(FIRST, "struck", text),
        }
    }

    // A row, and down to the next.
    fn row(&mut self, row: &Row) -> Result<(), AllocError> {
        self.bar(row, Side::First)?;
        self.bar(row, Side::Second)?;
        self.content(row)?;
        self.top = self.top.saturating_add(ROW);
        Ok(())
    }

    // The heads of the columns, and down to the first row.
    fn head(&mut self, title: &str) -> Result<(), AllocError> {
        self.text(ASKED, "told", title)?;
        self.text(FIRST, "asked", "first disk")?;
        self.text(SECOND, "asked", "second disk")?;
        self.text(TOLD, "asked", "told")?;
        self.top = ROWS;
        Ok(())
    }
}

// The whole picture.
pub fn picture(heap: Global, title: &str, rows: &[Row]) -> Result<String, AllocError> {
    let height = (rows.len().min(100000) as u32)
        .saturating_mul(ROW)
        .saturating_add(60);
    let out = format!(in heap;
        "<svg xmlns=\"http://www.w3.org/2000/svg\" width=\"{WIDTH}\" height=\"{height}\">\n{STYLE}\n"
    )?;
    let mut svg = Svg { out, top: HEAD };
    svg.head(title)?;
    for row in rows {
        svg.row(row)?;
    }
    let Svg { mut out, .. } = svg;
    out.push_str("</svg>\n")?;
    Ok(out)
}
