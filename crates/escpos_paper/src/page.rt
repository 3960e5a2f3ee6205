//! The page: what the commands so far have put on paper.
//!
//! What is printed stays on a page until it is torn off; where each command's items are torn off, a stream of any length
//! can be printed in the memory that one command takes. A page keeps the settings and one line. The invariant of its type says
//! that these are what the definitions find by looking back in the whole list of commands. What each command does to them is left
//! to `paper`; a page makes room for it. How wide a line is, is set when a page is made.

ghost use Rattle.std.specs.Prelude.{◌≡◌, ◌↔◌, ◌+◌, ◌≤◌, ℕ, nat_le, None, IsOk, IsTrue, IfOk, IfErr, OnOk, OnErr, List, [], ◌∷◌, ◌++◌, length, map, option_map, take};
ghost use Rattle.std.specs.List.{AllPass};
ghost use Rattle.escpos_command.specs.declared.command.Command.{Command};
ghost use Rattle.escpos_command.specs.declared.command.Command.TheVariants.{Char};
ghost use Rattle.escpos_command.specs.Parameters.{is_character};
ghost use Rattle.escpos_paper.specs.declared.item.Item.{Item};
ghost use Rattle.escpos_paper.specs.Cells.{nothing_placed};
ghost use Rattle.escpos_paper.specs.Page.{PageIs, IsReached};
ghost use Rattle.escpos_paper.specs.PowerOn.{is_clear, is_sheet_set_as_new};
ghost use Rattle.escpos_paper.specs.Storage.{nothing_stored};
ghost use Rattle.escpos_paper.specs.Styles.{power_on_settings, usual_stops};
ghost use Rattle.escpos_paper.specs.Torn.{TornIs, bare};

use crate::item::Item;
use crate::paper::{MOST_ITEMS, Paper};
use crate::style::Settings;
use escpos_command::{Command, LineWidth, QrData, laws};
use std::alloc::{AllocError, Global};
use std::marker::Model;

#[cfg(test)]
mod tests;

/// The paper that commands have printed so far, and what they have left for those to come.
#[derive(Drop)]
pub struct Page {
    paper: Paper,
}

impl Model for Page {
    ghost use Rattle.escpos_paper.specs.Page.{PageView, IsReached};
    ghost use Rattle.escpos_paper.specs.Steps.{page_on};

    ghost Value = { PageView };

    ghost view = { λ p. page_on p.paper };

    ghost invariant = { λ p. IsReached (page_on p.paper) };
}

impl Page {
    /// Paper with nothing on it, power-on settings and an empty line, in lines of this width. Allocates nothing.
    pub fn new(alloc: Global, width: LineWidth) -> Self
        ensures { PageIs width result [] [] }
    {
        Page {
            paper: Paper::new(alloc, width),
        }
    }

    /// How wide a line is. Allocates nothing.
    pub fn line_width(&self) -> LineWidth
        ensures { result ≡ self.now.sheet.line_dots }
    {
        self.paper.line_width
    }

    /// Makes room for the items of any one command. The error is a failed allocation.
    ///
    /// Items, settings and line stay as they are in either case.
    pub fn ready(&mut self) -> Result<(), AllocError>
        ensures same { self.new.sheet ≡ self.old.sheet }
        ensures room { OnOk result (MOST_ITEMS ≤ self.new.room) }
        ensures no_memory { MOST_ITEMS ≤ self.old.room → IsOk result }
    {
        self.paper.store.make_ready()?;
        self.paper.items.reserve(MOST_ITEMS)
    }

    /// Whether there is room for any one command. Allocates nothing.
    pub fn has_room(&self) -> bool
        ensures { result ≡ nat_le MOST_ITEMS self.now.room }
    {
        self.paper.store.is_ready()
            && self.paper.items.capacity() - self.paper.items.len() >= MOST_ITEMS
    }

    /// Carries out a command. `Err` returns the command where an allocation failed, and leaves items, settings and line
    /// as they were. Allocates nothing where the page has room.
    pub fn apply(&mut self, command: Command) -> Result<(), Command>
        ensures taken { OnOk result ((width : ℕ) (kept : List Item) (cs : List Command) →
            PageIs width self.old kept cs → PageIs width self.new kept (cs ++ command ∷ [])) }
        ensures torn { OnOk result ((width : ℕ) (gone : List Item) (cs : List Command) →
            TornIs width self.old gone cs → TornIs width self.new gone (cs ++ command ∷ [])) }
        ensures same { OnErr result (self.new.sheet ≡ self.old.sheet) }
        ensures given_back { IfErr result (λ back. back ≡ command) }
        ensures no_memory { MOST_ITEMS ≤ self.old.room → IsOk result }
    {
        // Proof only: the command is in range.
        laws::in_range(&command);
        if self.ready().is_err() {
            return Err(command);
        }
        self.paper.carry_out(command);
        Ok(())
    }

    /// Carries out characters: as many from the start of `text` as one line takes, and at least one. Returns how many. `Err`
    /// where an allocation failed; it leaves items, settings and line as they were. Allocates nothing where the page has room.
    pub fn apply_text(&mut self, text: &[u8]) -> Result<usize, AllocError>
        requires some { 1 ≤ length text.now }
        requires characters { AllPass is_character text.now }
        ensures count { IfOk result (λ count. (1 ≤ count) × (count ≤ length text.now)) }
        ensures taken { IfOk result (λ count. (width : ℕ) (kept : List Item) (cs : List Command) →
            PageIs width self.old kept cs → PageIs width self.new kept (cs ++ map Char (take count text.now))) }
        ensures torn { IfOk result (λ count. (width : ℕ) (gone : List Item) (cs : List Command) →
            TornIs width self.old gone cs → TornIs width self.new gone (cs ++ map Char (take count text.now))) }
        ensures same { OnErr result (self.new.sheet ≡ self.old.sheet) }
        ensures no_memory { MOST_ITEMS ≤ self.old.room → IsOk result }
    {
        self.ready()?;
        Ok(self.paper.put_text(text))
    }

    /// What is printed on the paper and wasn't torn off, from top to bottom. Allocates nothing.
    pub fn items(&self) -> &[Item]
        ensures items { result.now ≡ self.now.sheet.items }
        ensures reached { IsReached self.now }
    {
        self.paper.items.as_slice()
    }

    /// The settings. Allocates nothing.
    pub fn settings(&self) -> Settings
        ensures { result ≡ self.now.sheet.settings }
    {
        self.paper.settings
    }

    /// The data that is stored for QR codes. Allocates nothing.
    pub fn stored(&self) -> Option<&QrData>
        ensures { option_map (λ data_now. data_now.now) result ≡ self.now.sheet.storage.codes }
    {
        self.paper.store.stored()
    }

    /// Whether the settings and the tab stops are those of a printer just switched on, and neither data for QR codes nor graphics are stored.
    /// Allocates nothing.
    pub fn is_set_as_new(&self) -> bool
        ensures value { result ≡ is_sheet_set_as_new self.now.sheet }
        ensures as_new { IsTrue result ↔ ((self.now.sheet.settings ≡ power_on_settings) × (self.now.sheet.storage ≡ nothing_stored)
            × (self.now.sheet.stops ≡ usual_stops)) }
    {
        self.paper.settings.are_usual()
            && self.paper.store.stored().is_none()
            && self.paper.graphics.is_none()
            && self.paper.stops.are_usual()
    }

    /// Whether the line has no character, and the next one stands at its beginning. Allocates nothing.
    pub fn has_clear_line(&self) -> bool
        ensures value { result ≡ is_clear self.now.sheet.line }
        ensures clear { IsTrue result ↔ (self.now.sheet.line ≡ nothing_placed) }
    {
        self.paper.line.is_clear()
    }

    /// Drops what is printed on the paper. Settings, line and its width stay, and so does the room of what was dropped.
    /// Allocates nothing.
    pub fn tear_off(&mut self)
        ensures torn { self.new.sheet ≡ bare self.old.sheet }
        ensures room { self.old.room ≤ self.new.room }
    {
        self.paper.items.clear();
    }

    /// Forgets the commands so far: drops the line and restores the power-on settings. The paper stays, and so does the width
    /// of a line. Allocates nothing.
    pub fn restart(&mut self)
        ensures forgotten { PageIs self.old.sheet.line_dots self.new self.old.sheet.items [] }
        ensures same_room { self.old.room ≤ self.new.room }
    {
        self.paper.initialise();
    }
}
