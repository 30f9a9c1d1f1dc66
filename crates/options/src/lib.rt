// options.rs: what the host chooses, and the steps that change it.
#![tactic(auto)]

ghost use Rattle.std.specs.Prelude.{◌≡◌, ◌≤◌, false};
ghost use Rattle.rules.specs.Options.{max_indent, defaults, indent_with};
ghost use Rattle.rules.specs.EditorConfig.{starts_with_tab, spaces_for, resized, indent_from, too_large};
ghost use Rattle.rules.specs.EditorConfig.{with_editor_config};
ghost use Rattle.options.specs.Held.{options_in, held, held_change, held_named};

use crate::indent::Indent;
use rules::{FinalNewline, IndentStyle, LineEnding, OptionNumbers, Refusal, Resolved, Strengths};

pub mod editorconfig;
pub mod ending;
pub mod indent;
pub mod numbers;
pub mod strengths;

// The options of a call. No print width: no line is split. No line ending: the one that most lines of the source have.
#[derive(Clone, Copy)]
pub struct FormatOptions {
    pub indent: Indent,
    pub print_width: Option<usize>,
    pub end_of_line: Option<LineEnding>,
    pub insert_final_newline: FinalNewline,
    pub ruler_tab: usize,
    pub strengths: Strengths,
}

impl Default for FormatOptions {
    ghost is_default = { λ o. o ≡ held defaults };

    #[tactic(auto, unfolding(buffer::specs::Repeat::times))]
    fn default() -> Self {
        Self {
            indent: Indent::spaces(2),
            print_width: Some(Self::DEFAULT_PRINT_WIDTH),
            end_of_line: None,
            insert_final_newline: FinalNewline::Always,
            ruler_tab: 0,
            strengths: Strengths::BUILT_IN,
        }
    }
}

impl FormatOptions {
    pub const DEFAULT_PRINT_WIDTH: usize = OptionNumbers::DEFAULT_PRINT_WIDTH as usize;

    pub const MAX_INDENT: usize = Indent::MAX;

    // The options that an indent, numbers and strengths name, if each names a choice.
    #[tactic(auto, unfolding(rules::specs::Basics::choose, rules::specs::Options::valid_indent, rules::specs::Choices::valid_options, rules::specs::Choices::options_of))]
    pub fn from_numbers(
        indent: &[u8],
        numbers: OptionNumbers,
        strengths: Strengths,
    ) -> Result<Self, Refusal>
        ensures { result ≡ held_named (record {
          indent = indent.entry.now;
          numbers = numbers;
          strengths = strengths.table;
        }) }
    {
        let width = numbers::print_width_named(numbers.width_set, numbers.width);
        let ending = numbers::end_of_line_named(numbers.line_ending);
        let newline = numbers::final_newline_named(numbers.final_newline);
        if !numbers::valid_indent(indent) {
            return Err(Refusal::BadOption);
        }
        Ok(Self {
            indent: Indent::new(indent),
            print_width: width.ok_or(Refusal::BadOption)?,
            end_of_line: ending.ok_or(Refusal::BadOption)?,
            insert_final_newline: newline.ok_or(Refusal::BadOption)?,
            ruler_tab: numbers.ruler_tab as usize,
            strengths,
        })
    }

    // Indent with a tab, or with `size` spaces.
    #[tactic(auto, unfolding(rules::specs::Basics::choose, rules::specs::Options::indent_with))]
    pub fn indent_with(mut self, tabs: bool, size: usize) -> Result<Self, Refusal>
        ensures { result ≡ held_change (indent_with (options_in self) tabs size) }
    {
        if Self::MAX_INDENT < size {
            return Err(Refusal::BadOption);
        }
        self.indent = if tabs {
            Indent::new(b"\t")
        } else {
            Indent::spaces(size)
        };
        Ok(self)
    }

    #[tactic(auto, unfolding(rules::specs::Basics::first_is))]
    fn starts_with_tab(&self) -> bool
        ensures { result ≡ starts_with_tab (options_in self.now) }
    {
        self.indent.as_bytes().first() == Some(&b'\t')
    }

    // How many spaces `indent_style = space` gives.
    #[tactic(auto, unfolding(rules::specs::Basics::choose))]
    fn spaces_for(&self, size: Option<usize>) -> usize
        ensures value { result ≡ spaces_for size (options_in self.now) }
        ensures within { too_large size ≡ false → result ≤ max_indent }
    {
        match size {
            Some(n) => n,
            None if self.starts_with_tab() => 4,
            None => self.indent.len(),
        }
    }

    // A size alone resizes an indent that doesn't start with a tab.
    #[tactic(auto, unfolding(rules::specs::Basics::choose))]
    fn resized(&self, size: Option<usize>) -> Indent
        requires { too_large size ≡ false }
        ensures { result ≡ resized size (options_in self.now) }
    {
        match size {
            Some(n) if !self.starts_with_tab() => Indent::spaces(n),
            _ => self.indent,
        }
    }

    // The indent that the style and the size give.
    fn indent_from(&self, style: Option<IndentStyle>, size: Option<usize>) -> Indent
        requires { too_large size ≡ false }
        ensures { result ≡ indent_from style size (options_in self.now) }
    {
        match style {
            None => self.resized(size),
            Some(IndentStyle::Tabs) => Indent::new(b"\t"),
            Some(IndentStyle::Spaces) => Indent::spaces(self.spaces_for(size)),
        }
    }

    // These options overridden by what resolved .editorconfig values set.
    #[tactic(auto, unfolding(rules::specs::Basics::choose, rules::specs::EditorConfig::configured, rules::specs::EditorConfig::with_editor_config))]
    pub fn with_editorconfig(mut self, r: Resolved) -> Result<Self, Refusal>
        ensures { result ≡ held_change (with_editor_config (options_in self) r) }
    {
        let size = editorconfig::size_of(r.size, r.tab);
        if editorconfig::too_large(size) {
            return Err(Refusal::BadOption);
        }
        self.indent = self.indent_from(r.style, size);
        self.print_width = editorconfig::width_from(r.max, self.print_width);
        self.end_of_line = editorconfig::ending_from(r.ending, self.end_of_line);
        self.insert_final_newline = editorconfig::newline_from(
            r.newline,
            self.insert_final_newline,
        );
        Ok(self)
    }
}
