//! What drawings of scripts show. Places were worked out by hand: the first life line stands at 340, the next ones 108 apart; the
//! first row begins at 30, a row of one line is 22 high, and each further line 13.
use script_drawing::{Part, SvgText, draw};
use std::alloc::Global;
use std::test::Fail;

/// A script, the events that are drawn, how many arrows there are, and pieces of the drawing.
type Case = (&'static str, Part, usize, &'static [&'static str]);

/// Of its packets, 0 is delivered twice and 2 never.
const SENDS: &str =
    "setup 3 1 4096 8\nuser 1 create 0\ndeliver 0\ndeliver 0\ndeliver 1\nstop n1 0 keep\ncut n1\nrestart n1\nheal n1\nmoment 7\n";

const ALL: Part = Part {
    from: 1,
    to: usize::MAX,
};

const ARROWS: &[&str] = &[
    "<g><title>0 u1 -&gt; m CreateStream request=u1.0 stream=0/metadata fence=0; sent in event 1; delivered in event 2</title>\n<path class=\"a0\" d=\"M340 41L448 63\"/>\n<path class=\"band\" d=\"M439 70h-84\"/>\n<text x=\"439\" y=\"73\" text-anchor=\"end\">0 CreateStream</text>\n</g>\n",
    "<g><title>0 u1 -&gt; m CreateStream request=u1.0 stream=0/metadata fence=0; sent in event 1; delivered in event 3</title>\n<path class=\"a0\" d=\"M340 41L448 85\"/>\n<path class=\"band\" d=\"M439 92h-120\"/>\n<text x=\"439\" y=\"95\" text-anchor=\"end\">0 CreateStream again</text>\n</g>\n",
    "<g><title>2 m -&gt; u1 Refused request=u1.0 refusal=12 NameTaken; sent in event 3; never delivered</title>\n<path class=\"a1\" stroke-dasharray=\"4 3\" d=\"M448 85L408 104\"/>\n<path class=\"band\" d=\"M404 105h-90\"/>\n<text x=\"404\" y=\"108\" text-anchor=\"end\">2 Refused to u1</text>\n</g>\n",
    "<g><title>1 m -&gt; u1 Created request=u1.0; sent in event 2; delivered in event 4</title>\n<path class=\"a1\" d=\"M448 63L340 120\"/>\n<path class=\"band\" d=\"M349 127h54\"/>\n<text x=\"349\" y=\"130\">1 Created</text>\n</g>\n",
    // a dot where packets are sent, and their numbers
    " stroke-linecap=\"round\" d=\"M340 41L340 41\nM448 63L448 63\nM448 85L448 85\n\"/>\n",
    "<text x=\"346\" y=\"39\">0</text>\n",
    "<text x=\"454\" y=\"83\">2</text>\n",
];

/// A stop is a cross, with a dashed life line below it; a restart is a disc; a cut is a gap, and what ends it a ring.
const MARKS: &[&str] = &[
    "<path transform=\"translate(556 142)\" d=\"M-5-5L5 5M-5 5L5-5\" fill=\"none\" stroke=\"black\"/>\n<text x=\"566\" y=\"146\"><title>stop n1 0 keep</title>stop</text>\n",
    "<path stroke=\"#888\" stroke-dasharray=\"2 5\" d=\"M556 142L556 186\n\"/>\n",
    "<path transform=\"translate(556 164)\" d=\"M-8 1L8-7V-1L-8 7z\" fill=\"white\" stroke=\"white\"/>\n<path transform=\"translate(556 164)\" d=\"M-8 1L8-7M-8 7L8-1\" fill=\"none\" stroke=\"black\"/>\n<text x=\"566\" y=\"168\"><title>cut n1</title>cut</text>\n",
    "<path transform=\"translate(556 186)\" d=\"M-5 0a5 5 0 1 0 10 0a5 5 0 1 0-10 0z\" fill=\"black\" stroke=\"black\"/>\n<text x=\"566\" y=\"190\"><title>restart n1</title>restart</text>\n",
    "<path transform=\"translate(556 208)\" d=\"M-5 0a5 5 0 1 0 10 0a5 5 0 1 0-10 0z\" fill=\"white\" stroke=\"black\"/>\n<text x=\"566\" y=\"212\"><title>heal n1</title>heal</text>\n",
    " d=\"M268 230L628 230\n\"/>\n<text x=\"268\" y=\"226\">moment 7</text>\n",
];

const MARGINS: &[&str] = &[
    "<svg xmlns=\"http://www.w3.org/2000/svg\" font-family=\"monospace\" font-size=\"11\" width=\"765\" height=\"251\" viewBox=\"0 0 765 251\">\n",
    "<path stroke=\"#888\" d=\"M340 30L340 241\nM448 30L448 241\nM556 30L556 241\n\"/>\n",
    "<text x=\"340\" y=\"19\">u1</text>\n",
    "<text x=\"448\" y=\"19\">m</text>\n",
    "<text x=\"556\" y=\"19\">n1</text>\n",
    "<text x=\"54\" y=\"19\">events 1 to 9 of 9</text>\n",
    "<text x=\"44\" y=\"45\">1</text>\n",
    "<text x=\"54\" y=\"45\">user 1 create 0</text>\n",
    "<text x=\"54\" y=\"67\">deliver 0</text>\n",
    "<text x=\"646\" y=\"124\">user 1 0 created</text>\n",
];

/// Its only event delivers a packet that was sent before, and sends one that is delivered after it.
const BETWEEN: &[&str] = &[
    "width=\"545\" height=\"75\"",
    "; sent in event 1; delivered in event 2</title>\n<path class=\"a0\" d=\"M408 30L448 41\"/>\n<path class=\"band\" d=\"M439 48h-132\"/>\n<text x=\"439\" y=\"51\" text-anchor=\"end\">0 CreateStream from u1</text>\n",
    "; sent in event 2; delivered in event 4</title>\n<path class=\"a1\" d=\"M448 41L408 60\"/>\n<path class=\"band\" d=\"M404 61h-90\"/>\n<text x=\"404\" y=\"64\" text-anchor=\"end\">1 Created to u1</text>\n",
    "<text x=\"44\" y=\"45\">2</text>\n",
    "<text x=\"54\" y=\"19\">events 2 to 2 of 9</text>\n",
];

/// The node was stopped before.
const STOPPED: &[&str] = &[
    "<path stroke=\"#888\" stroke-dasharray=\"2 5\" d=\"M340 30L340 52\n\"/>\n",
    "<text x=\"54\" y=\"19\">events 6 to 6 of 9</text>\n",
];

/// The names of the actors alone.
const NONE: &[&str] = &[
    "width=\"653\" height=\"40\"",
    "<text x=\"340\" y=\"19\">u1</text>\n",
    "<text x=\"448\" y=\"19\">m</text>\n",
    "<text x=\"556\" y=\"19\">n1</text>\n",
    "<text x=\"54\" y=\"19\">no events of 9</text>\n",
    "<g text-anchor=\"end\" fill=\"#666\">\n</g>\n<g fill=\"black\">\n</g>\n<g fill=\"black\">\n</g>\n</svg>\n",
];

/// The first event names a packet that is sent only after it.
const COMES_EARLY: &str = "setup 3 1 4096 8\ndeliver 0\nuser 1 create 0\n";

const EARLY: &[&str] = &[
    "<text x=\"54\" y=\"45\">deliver 0</text>\n",
    "; sent in event 2; never delivered</title>\n<path class=\"a0\" stroke-dasharray=\"4 3\" d=\"M340 63L380 82\"/>\n",
];

const SETTLES: &str =
    "setup 3 1 4096 8\nuser 1 create 0\nsettle\nuser 1 extend 0 none 1 2 3\nsettle\n";

/// Deliveries stand indented below their line, and an arrow over two columns is bent.
const SETTLED: &[&str] = &[
    "<text x=\"54\" y=\"67\">settle</text>\n",
    "<text x=\"68\" y=\"89\">deliver 0</text>\n",
    "<text x=\"454\" y=\"171\">3-6</text>\n",
    "<g><title>3 m -&gt; n1 Make extent=1 fence=0 target=4096 places=1,2,3; sent in event 7; delivered in event 8</title>\n<path class=\"a1\" d=\"M448 173L556 195\"/>\n",
    "<path class=\"a1\" d=\"M448 173Q610 182 772 239\"/>\n<path class=\"band\" d=\"M763 246h-36\"/>\n<text x=\"763\" y=\"249\" text-anchor=\"end\">5 Make</text>\n",
];

const SPELLS: &str =
    "setup 3 1 4096 8\nuser 1 route <&>\"'\nuser 1 route \u{1}\t\u{7f}\nuser 1 route \u{e9}\u{fffe}\\\nuser 1 route abcdefghijklmnopqrstuvwxyz\nsplit 1 1 <&>\n";

/// What means something in XML, what no XML may hold, and what is too long.
const SPELLED: &[&str] = &[
    "<text x=\"54\" y=\"45\">user 1 route &lt;&amp;&gt;&quot;'</text>\n",
    "<text x=\"54\" y=\"80\">user 1 route \\u{1}\\t\\u{7f}</text>\n",
    "<text x=\"54\" y=\"115\">user 1 route \u{e9}\\u{fffe}\\\\</text>\n",
    "<text x=\"54\" y=\"150\"><title>user 1 route abcdefghijklmnopqrstuvwxyz</title>user 1 route abcdefghijklmn\u{2026}</text>\n",
    "<title>0 u1 -&gt; p Route request=u1.0 key=3c263e2227; sent in event 1; never delivered</title>",
    "<path transform=\"translate(448 181)\" d=\"M-4-4H4V4H-4z\" fill=\"black\" stroke=\"black\"/>\n<text x=\"458\" y=\"185\"><title>split 1 1 &lt;&amp;&gt;</title>split</text>\n",
    "<text x=\"646\" y=\"185\">refused 30 NotOwner</text>\n",
];

const CASES: &[Case] = &[
    (SENDS, ALL, 4, ARROWS),
    (SENDS, ALL, 4, MARKS),
    (SENDS, ALL, 4, MARGINS),
    (SENDS, Part { from: 2, to: 2 }, 2, BETWEEN),
    (SENDS, Part { from: 6, to: 6 }, 0, STOPPED),
    (SENDS, Part { from: 5, to: 3 }, 0, NONE),
    (
        SENDS,
        Part {
            from: 10,
            to: usize::MAX,
        },
        0,
        NONE,
    ),
    (
        SENDS,
        Part {
            from: usize::MAX,
            to: 0,
        },
        0,
        NONE,
    ),
    (SENDS, Part { from: 0, to: 0 }, 0, NONE),
    (COMES_EARLY, ALL, 1, EARLY),
    (
        COMES_EARLY,
        Part { from: 1, to: 1 },
        0,
        &["width=\"437\" height=\"62\""],
    ),
    (SETTLES, ALL, 7, SETTLED),
    (SPELLS, ALL, 4, SPELLED),
];

fn drawing_of(alloc: Global, text: &str, part: Part) -> Result<String, Fail> {
    let mut written = Vec::new(alloc);
    draw(alloc, text.as_bytes(), part, &mut written)?;
    Ok(String::from_utf8(written)?)
}

/// How often a word stands in a drawing.
fn count(drawing: &str, word: &str) -> usize {
    drawing.split(word).count().saturating_sub(1)
}

/// What a drawing would have where it refers to something outside it, or runs something.
const OUTSIDE: &[&str] = &[
    "<script", "<image", "<use", "<foreign", "href", "@import", "@font",
];

/// Whether a drawing refers to nothing but its own heads of arrows, and has but the name of its format from outside.
fn stands_alone(drawing: &str) -> bool {
    for word in OUTSIDE {
        if drawing.contains(*word) {
            return false;
        }
    }
    count(drawing, "http") == 1 && count(drawing, "url(") == count(drawing, "url(#head")
}

#[test]
fn drawings_show_what_happens(rt: HostRuntime) -> Result<(), Fail> {
    for (script, part, arrows, pieces) in CASES {
        let drawing = drawing_of(rt.alloc(), *script, *part)?;
        assert!(rt;
            count(drawing.as_str(), "<path class=\"a") == *arrows,
            "{script}"
        );
        assert!(rt; stands_alone(drawing.as_str()), "{script}");
        for piece in *pieces {
            assert!(rt; drawing.contains(*piece), "{piece}");
        }
    }
    Ok(())
}

#[test]
fn any_bytes_are_shown(rt: HostRuntime) -> Result<(), Fail> {
    let shown = format!(in rt.alloc(); "{}", SvgText(b"a\xff\xc3(\x00\x01\r<"))?;
    assert_eq!(rt; shown.as_str(), "a\\xff\\xc3(\\0\\u{1}\\r&lt;");
    Ok(())
}
