//! The fixed parts of every picture: its styles and its legend.

/// The styles of every picture, in colours of Okabe and Ito, which the colour-blind can distinguish.
pub(crate) const STYLES: &str = "<style>
text{font:12px Helvetica,Arial,sans-serif;stroke:#fff;stroke-width:3px;stroke-linejoin:round;paint-order:stroke}
path{fill:none;stroke-width:1.4px}
.paper{fill:#fff}.guide{stroke:#ddd;stroke-width:1px}.node{stroke:#999}
.heading{font-weight:bold;font-size:14px}.name{font-weight:bold;text-anchor:middle}.index{fill:#555;text-anchor:end}
.refused{fill:#fff;stroke:#000;stroke-width:1.2px}
.waits{stroke:#56b4e9;stroke-width:6px}.inside{fill:#f0e442;stroke:#000}
.section{font-weight:bold;text-anchor:middle;stroke:none}
";

/// The legend of a picture, and what else its shapes need.
#[derive(Clone, Copy)]
pub(crate) struct Legend {
    /// The end of the styles.
    pub(crate) styles: &'static str,
    /// The width of the legend, in pixels.
    pub(crate) width: u64,
    pub(crate) svg: &'static str,
}

/// The legend of a run. The arrows of parcels also differ in width and tip, so that they can be
/// distinguished without colours.
pub(crate) static RUN: Legend = Legend {
    styles: ".request{stroke:#0072b2}.grant{stroke:#009e73;stroke-width:2.4px}.other{stroke:#cc79a7}
.again{stroke-dasharray:6 4}.overtaken{stroke:#d55e00;stroke-width:1.8px}.pending{stroke:#555}
.air{font-style:italic}.left{text-anchor:end}
</style>
<defs>
<marker id=\"request\" viewBox=\"0 0 10 8\" refX=\"12\" refY=\"4\" markerWidth=\"10\" markerHeight=\"8\" markerUnits=\"userSpaceOnUse\" orient=\"auto\"><path d=\"M0 0L10 4L0 8z\" style=\"fill:#0072b2;stroke:none\"/></marker>
<marker id=\"grant\" viewBox=\"0 0 10 8\" refX=\"12\" refY=\"4\" markerWidth=\"10\" markerHeight=\"8\" markerUnits=\"userSpaceOnUse\" orient=\"auto\"><path d=\"M0 0L10 4L0 8z\" style=\"fill:#009e73;stroke:none\"/></marker>
<marker id=\"other\" viewBox=\"0 0 10 8\" refX=\"12\" refY=\"4\" markerWidth=\"10\" markerHeight=\"8\" markerUnits=\"userSpaceOnUse\" orient=\"auto\"><path d=\"M1 .5L9 4L1 7.5\" style=\"stroke:#cc79a7\"/></marker>
</defs>
",
    width: 826,
    svg: "<path class=\"request\" d=\"M16 18H46\" marker-end=\"url(#request)\"/><text x=\"52\" y=\"22\">request</text>
<path class=\"grant\" d=\"M116 18H146\" marker-end=\"url(#grant)\"/><text x=\"152\" y=\"22\">grant</text>
<path class=\"other\" d=\"M206 18H236\" marker-end=\"url(#other)\"/><text x=\"242\" y=\"22\">other</text>
<path class=\"other again\" d=\"M294 18H324\" marker-end=\"url(#other)\"/><text x=\"330\" y=\"22\">delivered again</text>
<path class=\"overtaken\" d=\"M432 14l20 4m-3-3l6 6m0-6l-6 6\"/><text x=\"462\" y=\"22\">overtaken</text>
<path class=\"pending\" d=\"M532 14l20 4m-3 0a3 3 0 1 0 6 0a3 3 0 1 0-6 0\"/><text x=\"562\" y=\"22\">under way at the end</text>
<path class=\"waits\" d=\"M692 11V25\"/><text x=\"702\" y=\"22\">waits</text>
<path class=\"inside\" d=\"M746 11h24v14h-24z\"/><text class=\"section\" x=\"758\" y=\"22\">1</text><text x=\"776\" y=\"22\">inside</text>
",
};

/// What some legends have beside that of a run: nothing.
pub(crate) static NOTHING: Legend = Legend {
    styles: "",
    width: 0,
    svg: "",
};

/// What the legend of a trace with messages has beside that of a run, at its right.
pub(crate) static MARKS: Legend = Legend {
    styles: ".broken{fill:#d55e00;stroke:#000;stroke-width:1.2px}.reason{fill:#a04000}\n",
    width: 1030,
    svg: "<circle class=\"refused\" cx=\"836\" cy=\"18\" r=\"2.5\"/><text x=\"846\" y=\"22\">refused</text>
<path class=\"broken\" d=\"M918 18l-13-7v14z\"/><text x=\"926\" y=\"22\">breaks a rule</text>
",
};

/// What the legend of a script that loses parcels has beside that of a run, at its right.
pub(crate) static LOSSES: Legend = Legend {
    styles: ".lost{stroke:#d55e00;stroke-dasharray:3 3}.cross{stroke-width:1.8px;stroke-dasharray:none}\n",
    width: 902,
    svg: "<g class=\"lost\"><path d=\"M836 12l26 13\"/><path class=\"cross\" d=\"M836 12m26 13m-3-3l6 6m0-6l-6 6\"/></g><text x=\"872\" y=\"22\">lost</text>
",
};

/// The legend of a trace without messages.
pub(crate) static TRACE: Legend = Legend {
    styles: ".broken{fill:#d55e00;stroke:#000;stroke-width:1.2px}.reason{fill:#a04000}
.air{font-style:italic}.left{text-anchor:end}
</style>
",
    width: 386,
    svg: "<path class=\"waits\" d=\"M22 11V25\"/><text x=\"32\" y=\"22\">waits</text>
<path class=\"inside\" d=\"M76 11h24v14h-24z\"/><text class=\"section\" x=\"88\" y=\"22\">1</text><text x=\"106\" y=\"22\">inside</text>
<circle class=\"refused\" cx=\"162\" cy=\"18\" r=\"2.5\"/><text x=\"172\" y=\"22\">refused</text>
<path class=\"broken\" d=\"M244 18l-13-7v14z\"/><text x=\"252\" y=\"22\">breaks a rule</text>
",
};
