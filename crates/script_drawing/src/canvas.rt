//! An SVG document, element by element.
use crate::svg_text::{ClippedText, SvgText};
use std::alloc::{AllocError, Global};

/// The colours of arrows. A colour is no more than a second cue.
const COLOURS: [&str; 6] = [
    "#1f4e9c", "#8a1f5c", "#1d6b3a", "#8a4b08", "#5b2a86", "#44546a",
];

/// A text has a white edge, which hides what passes below it, and a label a white band. Printed, a drawing is as wide as the page, whose
/// edge would cut off the margin on its right.
const STYLE: &str =
    "text{paint-order:stroke;stroke:white;stroke-width:3px;stroke-linejoin:round}\n.band{stroke:white;stroke-width:10px;stroke-opacity:.85}\n@media print{svg:root{width:100%;height:auto}}\n";

/// How wide a character of a label is taken to be, and how far the middle of its band is above its base line, in pixels.
const LABEL_CHARACTER: u64 = 6;

const BAND_RISE: u64 = 3;

/// How far a loop stands out from its life line, in pixels.
const LOOP_WIDTH: u64 = 36;

/// A place on the drawing, in pixels from its upper left corner.
#[derive(Clone, Copy)]
pub(crate) struct Point {
    pub x: u64,
    pub y: u64,
}

/// What stands on a life line where something happens.
#[derive(Clone, Copy)]
pub(crate) struct Symbol {
    /// The data of a path around the place where it stands.
    pub outline: &'static str,
    pub fill: &'static str,
    pub stroke: &'static str,
}

/// The arrow of a packet.
#[derive(Clone, Copy)]
pub(crate) struct Arrow {
    pub tail: Point,
    pub head: Point,
    /// How far its course is bent up, in pixels.
    pub bend: u64,
    /// The place of its sender among the actors, which decides the colour.
    pub sender: usize,
    pub is_dashed: bool,
}

/// A document that is being written.
#[derive(Drop)]
pub(crate) struct Canvas {
    pub text: String,
}

impl Canvas {
    /// A white page of this size.
    pub fn new(alloc: Global, width: u64, height: u64) -> Result<Canvas, AllocError> {
        let mut text = String::new(alloc);
        text.push_str("<svg xmlns=\"http://www.w3.org/2000/svg\" font-family=\"monospace\"")?;
        writeln!(
            text,
            " font-size=\"11\" width=\"{width}\" height=\"{height}\" viewBox=\"0 0 {width} {height}\">"
        )?;
        write!(text, "<style>\n{STYLE}")?;
        for (index, colour) in COLOURS.iter().enumerate() {
            writeln!(
                text,
                ".a{index}{{fill:none;stroke:{colour};stroke-width:1.2px;marker-end:url(#head{index})}}"
            )?;
        }
        text.push_str("</style>\n")?;
        for (index, colour) in COLOURS.iter().enumerate() {
            writeln!(
                text,
                "<marker id=\"head{index}\" markerWidth=\"8\" markerHeight=\"8\" refX=\"8\" refY=\"4\" markerUnits=\"userSpaceOnUse\" orient=\"auto\"><path d=\"M0 1L8 4L0 7z\" fill=\"{colour}\"/></marker>"
            )?;
        }
        writeln!(
            text,
            "<rect width=\"{width}\" height=\"{height}\" fill=\"white\"/>"
        )?;
        Ok(Canvas { text })
    }

    /// The whole document.
    pub fn finish(self) -> Result<String, AllocError> {
        let Canvas { mut text } = self;
        text.push_str("</svg>\n")?;
        Ok(text)
    }

    /// Begins a group of elements that have these attributes.
    pub fn begin(&mut self, attributes: &str) -> Result<(), AllocError> {
        writeln!(self.text, "<g {attributes}>")
    }

    /// Ends the group that was begun last.
    pub fn end(&mut self) -> Result<(), AllocError> {
        self.text.push_str("</g>\n")
    }

    /// Begins a list of lines that have these attributes.
    pub fn begin_lines(&mut self, attributes: &str) -> Result<(), AllocError> {
        write!(self.text, "<path {attributes} d=\"")
    }

    /// One of a list of lines. One that has no length is a dot, where the ends of lines are round.
    pub fn line(&mut self, from: Point, to: Point) -> Result<(), AllocError> {
        writeln!(self.text, "M{} {}L{} {}", from.x, from.y, to.x, to.y)
    }

    /// Ends the list of lines that was begun last.
    pub fn end_lines(&mut self) -> Result<(), AllocError> {
        self.text.push_str("\"/>\n")
    }

    /// A symbol with its middle at a place.
    pub fn symbol(&mut self, middle: Point, symbol: Symbol) -> Result<(), AllocError> {
        let Symbol {
            outline,
            fill,
            stroke,
        } = symbol;
        writeln!(
            self.text,
            "<path transform=\"translate({} {})\" d=\"{outline}\" fill=\"{fill}\" stroke=\"{stroke}\"/>",
            middle.x, middle.y
        )
    }

    /// An arrow. One from a life line to itself is a loop.
    pub fn arrow(&mut self, arrow: Arrow) -> Result<(), AllocError> {
        let Arrow { tail, head, .. } = arrow;
        let dashes = if arrow.is_dashed {
            " stroke-dasharray=\"4 3\""
        } else {
            ""
        };
        let colour = arrow.sender % COLOURS.len();
        write!(
            self.text,
            "<path class=\"a{colour}\"{dashes} d=\"M{} {}",
            tail.x, tail.y
        )?;
        if tail.x == head.x {
            let side = tail.x.saturating_add(LOOP_WIDTH);
            write!(self.text, "C{side} {} {side} {} ", tail.y, head.y)?;
        } else if arrow.bend > 0 {
            let middle = tail.x.saturating_add(head.x) / 2;
            let height = tail.y.saturating_add(head.y) / 2;
            write!(
                self.text,
                "Q{middle} {} ",
                height.saturating_sub(arrow.bend)
            )?;
        } else {
            self.text.push('L')?;
        }
        writeln!(self.text, "{} {}\"/>", head.x, head.y)
    }

    /// Begins a text at a place of its base line, or one that ends there.
    pub fn begin_text(&mut self, at: Point, ends_there: bool) -> Result<(), AllocError> {
        let anchor = if ends_there {
            " text-anchor=\"end\""
        } else {
            ""
        };
        write!(self.text, "<text x=\"{}\" y=\"{}\"{anchor}>", at.x, at.y)
    }

    /// Ends the text that was begun last.
    pub fn end_text(&mut self) -> Result<(), AllocError> {
        self.text.push_str("</text>\n")
    }

    /// A label that begins at a place of its base line, or ends there, of characters that mean nothing in XML.
    pub fn label(&mut self, at: Point, ends_there: bool, label: &str) -> Result<(), AllocError> {
        let width = (label.len() as u64).saturating_mul(LABEL_CHARACTER);
        let sign = if ends_there { "-" } else { "" };
        writeln!(
            self.text,
            "<path class=\"band\" d=\"M{} {}h{sign}{width}\"/>",
            at.x,
            at.y.saturating_sub(BAND_RISE)
        )?;
        self.begin_text(at, ends_there)?;
        self.text.push_str(label)?;
        self.end_text()
    }

    /// What is shown where the text or the group that was begun last is pointed at.
    pub fn title(&mut self, words: &[u8]) -> Result<(), AllocError> {
        write!(self.text, "<title>{}</title>", SvgText(words))
    }

    /// A text that begins at a place of its base line. Where it takes more columns than these it is cut off, and the whole is shown
    /// where it is pointed at.
    pub fn clipped_text(
        &mut self,
        at: Point,
        text: &[u8],
        columns: usize,
    ) -> Result<(), AllocError> {
        let clipped = ClippedText { text, columns };
        self.begin_text(at, false)?;
        if clipped.is_clipped() {
            self.title(text)?;
        }
        write!(self.text, "{clipped}")?;
        self.end_text()
    }
}
