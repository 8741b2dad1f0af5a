//! How the parts of a picture look, and its measures: 1,200 units by 780.

/// Where the frames begin, from the left side.
pub const LEFT: u32 = 100;

/// Where they end.
pub const RIGHT: u32 = 1140;

/// The upper side of the frame of discharges.
pub const FLOW_TOP: u32 = 84;

/// Its lower side.
pub const FLOW_BOTTOM: u32 = 364;

/// The upper side of the frame of stages.
pub const STAGE_TOP: u32 = 400;

/// Its lower side.
pub const STAGE_BOTTOM: u32 = 680;

/// What stands before the parts.
pub const HEAD: &[u8] = b"<?xml version=\"1.0\" encoding=\"UTF-8\"?>
<svg xmlns=\"http://www.w3.org/2000/svg\" width=\"1200\" height=\"780\" viewBox=\"0 0 1200 780\">
<style>
text{font-family:DejaVu Sans,Arial,sans-serif;font-size:13px;fill:#222}
.title{font-size:18px}
.axis{font-size:14px}
.left{text-anchor:end}
.under{text-anchor:middle}
path{fill:none}
.paper{fill:#fff}
.frame{stroke:#222}
.grid{stroke:#ddd}
.review{fill:#fff3c4}
.approved{fill:#dcefdc}
.gap{fill:#c8c8c8;fill-opacity:0.7}
.stage{stroke:#1f5fa8;stroke-width:1.5}
.daily{stroke:#1b1b1b;stroke-width:2.5}
.estimated{stroke:#d1480f;stroke-width:3}
.cross{stroke:#a3007d;stroke-width:2}
.wrong{stroke:#d11a1a;stroke-width:2}
.affected{stroke:#7a5b00;stroke-width:2}
</style>
<path class=\"paper\" d=\"M0 0H1200V780H0Z\"/>
";

/// What stands behind them: what each mark means, and the end of the picture.
pub const TAIL: &[u8] = b"<path class=\"stage\" d=\"M100 736H124\"/>
<text x=\"130\" y=\"740\">readings</text>
<path class=\"daily\" d=\"M230 736H254\"/>
<text x=\"260\" y=\"740\">mean of a day</text>
<path class=\"estimated\" d=\"M390 736H414\"/>
<text x=\"420\" y=\"740\">estimate</text>
<path class=\"cross\" d=\"M522 736m-6-6l12 12m0-12l-12 12\"/>
<text x=\"536\" y=\"740\">measurement</text>
<path class=\"gap\" d=\"M660 728H684V744H660Z\"/>
<text x=\"690\" y=\"740\">gap</text>
<path class=\"review\" d=\"M760 728H784V744H760Z\"/>
<text x=\"790\" y=\"740\">in review</text>
<path class=\"approved\" d=\"M880 728H904V744H880Z\"/>
<text x=\"910\" y=\"740\">approved</text>
<path class=\"wrong\" d=\"M112 757v10\"/>
<text x=\"130\" y=\"767\">erroneous reading (at the lower side)</text>
<path class=\"affected\" d=\"M412 757v10\"/>
<text x=\"420\" y=\"767\">affected reading (at the upper side)</text>
</svg>
";
