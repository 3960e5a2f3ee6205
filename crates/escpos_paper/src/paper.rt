//! What one command does to the paper, the settings, the tab stops and the line.
//!
//! `Paper::carry_out` has an arm for every kind of command, and is the only function of this crate that has; `Paper::set` has one
//! for each setting of lines and barcodes, and `Style::after` for each of characters. `page` makes room for the items first, so
//! nothing here can fail.

ghost use Rattle.std.specs.Prelude.{◌≡◌, ◌+◌, ◌≤◌, ℕ, IsTrue, [], ◌∷◌, ◌++◌, length, map, take, if◌then◌else◌, None, true, vec_len, vec_capacity};
ghost use Rattle.escpos_command.specs.declared.command.Command.TheVariants as kind;
ghost use Rattle.escpos_command.specs.declared.command.Command.TheVariants.{Set};
ghost use Rattle.escpos_command.specs.Settings.{sets_graphics};
ghost use Rattle.escpos_command.specs.Text.{is_some};
ghost use Rattle.escpos_paper.specs.Printed.{row_of, row_and_feed, bars_item, raster_item, prints_graphics, prints_stored};
ghost use Rattle.escpos_paper.specs.declared.item.Item.TheVariants as item;
ghost use Rattle.escpos_paper.specs.Rows.{fits};
ghost use Rattle.escpos_paper.specs.Styles.{power_on_settings, is_empty, set_after, sets_stops, usual_stops};
ghost use Rattle.std.specs.Option.{unwrap_or};
ghost use Rattle.escpos_command.specs.declared.line_width.TheConstants.{MOST_LINE_DOTS};
ghost use Rattle.escpos_command.specs.declared.parameter.position.PositionKind.TheVariants as position;
ghost use Rattle.escpos_paper.specs.Cells.{cell, nothing_placed};
ghost use Rattle.escpos_paper.specs.Steps.{area_of, has_room, sheet_on, sheet_after_all, step_prints, settings_after, storage_after, storage_on, line_after, with_cell};

use crate::barcode::{bars_item, graphics_item, raster_item};
use crate::cell::Cell;
use crate::item::Item;
use crate::print_buffer::PrintBuffer;
use crate::qr_store::QrStore;
use crate::stops::Stops;
use crate::style::{LineStyle, Settings, Style};
use escpos_command::{
    Bars, Command, Graphics, LineWidth, Position, PositionKind, Raster, SettingKind, TabStops,
    choice, face_of, hri_position_of,
};
use std::alloc::Global;

/// The most items that one command prints: a row, a feed and a barcode, a raster, graphics, a QR code or a cut.
pub const MOST_ITEMS: usize = 3;

const _: () = prove!(MOST_ITEMS == 3);

/// What commands leave: how wide a line is, which no command changes, the items on paper, the settings, the data of QR codes and the
/// graphics that are stored, the tab stops, and the line that isn't printed yet.
#[derive(Drop)]
pub struct Paper {
    pub line_width: LineWidth,
    pub items: Vec<Item>,
    pub settings: Settings,
    pub store: QrStore,
    pub graphics: Option<Graphics>,
    pub stops: Stops,
    pub line: PrintBuffer,
}

impl Paper {
    /// Paper with nothing on it, power-on settings and an empty line, in lines of this width. Allocates nothing.
    pub fn new(alloc: Global, width: LineWidth) -> Self
        ensures line_width { result.line_width ≡ width }
        ensures items { result.items.items ≡ [] }
        ensures settings { result.settings ≡ power_on_settings }
        ensures stored { result.store.stored ≡ None }
        ensures graphics { result.graphics ≡ None }
        ensures stops { result.stops ≡ usual_stops }
        ensures line { result.line ≡ nothing_placed }
    {
        Paper {
            line_width: width,
            items: Vec::new(alloc),
            settings: Settings::power_on(),
            store: QrStore::new(alloc),
            graphics: None,
            stops: Stops::usual(),
            line: PrintBuffer::new(),
        }
    }

    /// Drops the line and restores the power-on settings. The items stay, and so does the width of a line.
    pub fn initialise(&mut self)
        ensures line_width { self.new.line_width ≡ self.old.line_width }
        ensures items { self.new.items ≡ self.old.items }
        ensures settings { self.new.settings ≡ power_on_settings }
        ensures stored { self.new.store.stored ≡ None }
        ensures graphics { self.new.graphics ≡ None }
        ensures ready { self.new.store.ready ≡ true }
        ensures stops { self.new.stops ≡ usual_stops }
        ensures line { self.new.line ≡ nothing_placed }
    {
        self.settings = Settings::power_on();
        self.store.clear();
        self.graphics = None;
        self.stops = Stops::usual();
        self.line = PrintBuffer::new();
    }

    /// Carries out a command. The bytes of a barcode, a raster or graphics are moved onto the paper.
    pub fn carry_out(&mut self, command: Command)
        requires room { vec_len self.old.items + MOST_ITEMS ≤ vec_capacity self.old.items }
        requires ready { IsTrue self.old.store.ready }
        requires visible { (1 ≤ self.old.settings.text.width) × (1 ≤ self.old.settings.text.height) }
        requires narrow { (self.old.settings.text.width ≤ 8) × (self.old.settings.text.height ≤ 8) }
        ensures line_width { self.new.line_width ≡ self.old.line_width }
        ensures items { self.new.items.items
            ≡ self.old.items.items ++ step_prints self.old.line_width self.old.settings (storage_on self.old) self.old.line command }
        ensures settings { self.new.settings ≡ settings_after (is_empty self.old.line.cells) self.old.settings command }
        ensures storage { storage_on self.new ≡ storage_after (storage_on self.old) command }
        ensures stops { self.new.stops ≡ unwrap_or (sets_stops self.old.settings.text command) self.old.stops }
        ensures line { self.new.line ≡ line_after self.old.line_width self.old.settings self.old.stops (storage_on self.old) self.old.line command }
    {
        match command {
            Command::Char(character) => {
                let area = self.area();
                let cell = self.settings.text.cell(character.byte());
                put_cell(
                    &mut self.items,
                    &mut self.line,
                    area,
                    self.settings.lines,
                    cell,
                );
            }
            Command::Tab => {
                let area = self.area();
                self.line.go_to_stop(area, &self.stops);
            }
            Command::Position(position) => self.set_position(position),
            Command::TabStops(columns) => self.stops = Stops::of(&columns, &self.settings.text),
            Command::LineFeed => self.feed_lines(1),
            Command::FeedLines(lines) => self.feed_lines(lines.byte()),
            Command::FeedUnits(units) => self.feed_units(units.byte()),
            Command::Bars(bars) => self.print_bars(bars),
            Command::Raster(raster) => self.print_raster(raster),
            Command::Cut(cut) => self.print_cut(cut.is_partial(), cut.feed()),
            Command::OldCut(_) => self.print_cut(true, None),
            Command::GraphicsPrint(_) => self.print_graphics(),
            Command::GraphicsStore(graphics) => self.store_graphics(graphics),
            Command::QrPrint => self.print_stored(),
            Command::QrStore(stored) => self.store.store(stored),
            Command::QrModel(model) => self.settings.codes.model = model.number(),
            Command::QrSize(size) => self.settings.codes.size = size.byte(),
            Command::QrLevel(level) => self.settings.codes.correction = level.correction(),
            Command::Init => self.initialise(),
            Command::Set(setting) => self.set(setting.kind(), setting.parameter()),
            Command::Return
            | Command::Pulse(_)
            | Command::AutomaticStatus(_)
            | Command::Status(_)
            | Command::Mark(_) => {}
        }
    }

    // How wide the printing area is.
    #[inline]
    fn area(&self) -> usize
        ensures value { result ≡ area_of self.now.line_width self.now.settings }
        ensures within { result ≤ MOST_LINE_DOTS }
    {
        self.settings.lines.alignment.area_dots(self.line_width)
    }

    // Moves the place of the next character, or sets the margin or the width of the printing area.
    fn set_position(&mut self, position: Position)
        ensures line_width { self.new.line_width ≡ self.old.line_width }
        ensures items { self.new.items ≡ self.old.items }
        ensures settings { self.new.settings ≡ settings_after (is_empty self.old.line.cells) self.old.settings (kind.Position position) }
        ensures store { self.new.store ≡ self.old.store }
        ensures graphics { self.new.graphics ≡ self.old.graphics }
        ensures stops { self.new.stops ≡ self.old.stops }
        ensures line { self.new.line ≡ line_after self.old.line_width self.old.settings self.old.stops (storage_on self.old) self.old.line (kind.Position position) }
    {
        let units = position.units();
        match position.kind() {
            PositionKind::Absolute => {
                let area = self.area();
                self.line.go_to(area, units);
            }
            PositionKind::Relative => self.go(units),
            PositionKind::LeftMargin => {
                self.settings.lines = self.settings.lines.with_margin(self.line.is_empty(), units);
            }
            PositionKind::AreaWidth => {
                self.settings.lines = self.settings.lines.with_width(self.line.is_empty(), units);
            }
        }
    }

    // Moves the place of the next character by a number of dots, as ESC \ has it.
    fn go(&mut self, units: u16)
        ensures line_width { self.new.line_width ≡ self.old.line_width }
        ensures items { self.new.items ≡ self.old.items }
        ensures settings { self.new.settings ≡ self.old.settings }
        ensures store { self.new.store ≡ self.old.store }
        ensures graphics { self.new.graphics ≡ self.old.graphics }
        ensures stops { self.new.stops ≡ self.old.stops }
        ensures line { self.new.line ≡ line_after self.old.line_width self.old.settings self.old.stops (storage_on self.old) self.old.line (kind.Position (position.Relative, units)) }
    {
        let area = self.area();
        if units < 32768 {
            self.line.go_right(area, units);
        } else {
            self.line.go_left(area, 65535 - units + 1);
        }
    }

    // Sets what a setting of this kind with this parameter sets.
    fn set(&mut self, kind: SettingKind, parameter: Option<u8>)
        ensures line_width { self.new.line_width ≡ self.old.line_width }
        ensures items { self.new.items ≡ self.old.items }
        ensures settings { self.new.settings ≡ settings_after (is_empty self.old.line.cells) self.old.settings (Set (kind, parameter)) }
        ensures store { self.new.store ≡ self.old.store }
        ensures graphics { self.new.graphics ≡ self.old.graphics }
        ensures stops { self.new.stops ≡ self.old.stops }
        ensures line { self.new.line ≡ self.old.line }
    {
        let value = parameter.unwrap_or(0);
        match kind {
            SettingKind::Align => {
                self.settings.lines = self.settings.lines.aligned(self.line.is_empty(), value);
            }
            SettingKind::UpsideDown => {
                self.settings.lines = self.settings.lines.turned(self.line.is_empty(), value);
            }
            SettingKind::LineSpacing => self.settings.lines.spacing = Some(value),
            SettingKind::DefaultSpacing => self.settings.lines.spacing = None,
            SettingKind::BarHeight => self.settings.bars.height = value,
            SettingKind::BarWidth => self.settings.bars.module_width = value,
            SettingKind::HriPlace => self.settings.bars.place = hri_position_of(choice(value)),
            SettingKind::HriFont => self.settings.bars.hri_font = face_of(choice(value)),
            _ => self.settings.text = self.settings.text.after(kind, parameter),
        }
    }

    /// Puts characters into the line, as many from the start of `text` as fit and at least one, and returns how many. If not
    /// even the first fits, ends the line before it.
    pub fn put_text(&mut self, text: &[u8]) -> usize
        requires some { 1 ≤ length text.now }
        requires room { vec_len self.old.items + 2 ≤ vec_capacity self.old.items }
        requires visible { (1 ≤ self.old.settings.text.width) × (1 ≤ self.old.settings.text.height) }
        requires narrow { (self.old.settings.text.width ≤ 8) × (self.old.settings.text.height ≤ 8) }
        ensures count { (1 ≤ result) × (result ≤ length text.now) }
        ensures sheet { sheet_on self.new ≡ sheet_after_all (sheet_on self.old) (map kind.Char (take result text.now)) }
    {
        let area = self.area();
        if !self.line.follows() {
            let cell = self.settings.text.cell(text[0]);
            put_cell(
                &mut self.items,
                &mut self.line,
                area,
                self.settings.lines,
                cell,
            );
            return 1;
        }
        make_room(
            &mut self.items,
            &mut self.line,
            area,
            self.settings.lines,
            &self.settings.text,
        );
        let room = self.line.room_for(area, &self.settings.text);
        let count = text.len().min(room);
        self.line.extend(self.settings.text, &text[..count]);
        count
    }

    // What makes an item isn't inlined: its room is large, and would be cleared for each command.

    // Prints the line and then a feed of this many lines, in the spacing that is set.
    #[inline(never)]
    fn feed_lines(&mut self, lines: u8)
        requires { vec_len self.old.items + 2 ≤ vec_capacity self.old.items }
        ensures items { self.new.items.items
            ≡ self.old.items.items ++ row_of self.old.settings.lines self.old.line.cells ++ item.Feed lines self.old.settings.lines.spacing ∷ [] }
        ensures line_width { self.new.line_width ≡ self.old.line_width }
        ensures settings { self.new.settings ≡ self.old.settings }
        ensures store { self.new.store ≡ self.old.store }
        ensures graphics { self.new.graphics ≡ self.old.graphics }
        ensures stops { self.new.stops ≡ self.old.stops }
        ensures line { self.new.line ≡ nothing_placed }
    {
        print_line(&mut self.items, &mut self.line, self.settings.lines);
        self.items.push_reserved(Item::Feed {
            lines,
            spacing: self.settings.lines.spacing,
        });
    }

    // Prints the line and then a feed of this many motion units.
    #[inline(never)]
    fn feed_units(&mut self, units: u8)
        requires { vec_len self.old.items + 2 ≤ vec_capacity self.old.items }
        ensures items { self.new.items.items
            ≡ self.old.items.items ++ row_of self.old.settings.lines self.old.line.cells ++ item.FeedUnits units ∷ [] }
        ensures line_width { self.new.line_width ≡ self.old.line_width }
        ensures settings { self.new.settings ≡ self.old.settings }
        ensures store { self.new.store ≡ self.old.store }
        ensures graphics { self.new.graphics ≡ self.old.graphics }
        ensures stops { self.new.stops ≡ self.old.stops }
        ensures line { self.new.line ≡ nothing_placed }
    {
        print_line(&mut self.items, &mut self.line, self.settings.lines);
        self.items.push_reserved(Item::FeedUnits(units));
    }

    // Ends the line and prints a barcode.
    #[inline(never)]
    fn print_bars(&mut self, bars: Bars)
        requires { vec_len self.old.items + MOST_ITEMS ≤ vec_capacity self.old.items }
        ensures items { self.new.items.items
            ≡ self.old.items.items ++ row_and_feed self.old.settings.lines self.old.line.cells ++ bars_item self.old.settings.lines.alignment self.old.settings.bars bars ∷ [] }
        ensures line_width { self.new.line_width ≡ self.old.line_width }
        ensures settings { self.new.settings ≡ self.old.settings }
        ensures store { self.new.store ≡ self.old.store }
        ensures graphics { self.new.graphics ≡ self.old.graphics }
        ensures stops { self.new.stops ≡ self.old.stops }
        ensures line { self.new.line ≡ nothing_placed }
    {
        self.print(bars_item(self.settings.lines.alignment, self.settings.bars, bars));
    }

    // Ends the line and prints a raster.
    #[inline(never)]
    fn print_raster(&mut self, raster: Raster)
        requires { vec_len self.old.items + MOST_ITEMS ≤ vec_capacity self.old.items }
        ensures items { self.new.items.items
            ≡ self.old.items.items ++ row_and_feed self.old.settings.lines self.old.line.cells ++ raster_item self.old.settings.lines.alignment raster ∷ [] }
        ensures line_width { self.new.line_width ≡ self.old.line_width }
        ensures settings { self.new.settings ≡ self.old.settings }
        ensures store { self.new.store ≡ self.old.store }
        ensures graphics { self.new.graphics ≡ self.old.graphics }
        ensures stops { self.new.stops ≡ self.old.stops }
        ensures line { self.new.line ≡ nothing_placed }
    {
        self.print(raster_item(self.settings.lines.alignment, raster));
    }

    // Ends the line and cuts.
    #[inline(never)]
    fn print_cut(&mut self, partial: bool, feed: Option<u8>)
        requires { vec_len self.old.items + MOST_ITEMS ≤ vec_capacity self.old.items }
        ensures items { self.new.items.items
            ≡ self.old.items.items ++ row_and_feed self.old.settings.lines self.old.line.cells ++ item.Cut partial feed ∷ [] }
        ensures line_width { self.new.line_width ≡ self.old.line_width }
        ensures settings { self.new.settings ≡ self.old.settings }
        ensures store { self.new.store ≡ self.old.store }
        ensures graphics { self.new.graphics ≡ self.old.graphics }
        ensures stops { self.new.stops ≡ self.old.stops }
        ensures line { self.new.line ≡ nothing_placed }
    {
        self.print(Item::Cut { partial, feed });
    }

    // Ends the line and prints the QR code of the data that is stored; does nothing if none is.
    #[inline(never)]
    fn print_stored(&mut self)
        requires room { vec_len self.old.items + MOST_ITEMS ≤ vec_capacity self.old.items }
        requires ready { IsTrue self.old.store.ready }
        ensures items { self.new.items.items
            ≡ self.old.items.items ++ prints_stored self.old.settings.lines self.old.settings.codes self.old.store.stored self.old.line.cells }
        ensures line_width { self.new.line_width ≡ self.old.line_width }
        ensures settings { self.new.settings ≡ self.old.settings }
        ensures stored { self.new.store.stored ≡ self.old.store.stored }
        ensures graphics { self.new.graphics ≡ self.old.graphics }
        ensures stops { self.new.stops ≡ self.old.stops }
        ensures line { self.new.line ≡ (if is_some self.old.store.stored then nothing_placed else self.old.line) }
    {
        if let Some(content) = self.store.copy() {
            self.print(Item::Qr {
                align: self.settings.lines.alignment,
                model: self.settings.codes.model,
                size: self.settings.codes.size,
                level: self.settings.codes.correction,
                content,
            });
        }
    }

    // Stores graphics in place of those that were stored; does nothing if their dots aren't those of their size.
    fn store_graphics(&mut self, graphics: Graphics)
        ensures line_width { self.new.line_width ≡ self.old.line_width }
        ensures items { self.new.items ≡ self.old.items }
        ensures settings { self.new.settings ≡ self.old.settings }
        ensures store { self.new.store ≡ self.old.store }
        ensures graphics { self.new.graphics ≡ set_after sets_graphics None self.old.graphics (kind.GraphicsStore graphics) }
        ensures stops { self.new.stops ≡ self.old.stops }
        ensures line { self.new.line ≡ self.old.line }
    {
        if graphics.has_its_dots() {
            self.graphics = Some(graphics);
        }
    }

    // Ends the line, prints the graphics that are stored, and stores none; does nothing if none are.
    #[inline(never)]
    fn print_graphics(&mut self)
        requires room { vec_len self.old.items + MOST_ITEMS ≤ vec_capacity self.old.items }
        ensures items { self.new.items.items
            ≡ self.old.items.items ++ prints_graphics self.old.settings.lines self.old.graphics self.old.line.cells }
        ensures line_width { self.new.line_width ≡ self.old.line_width }
        ensures settings { self.new.settings ≡ self.old.settings }
        ensures store { self.new.store ≡ self.old.store }
        ensures graphics { self.new.graphics ≡ None }
        ensures stops { self.new.stops ≡ self.old.stops }
        ensures line { self.new.line ≡ (if is_some self.old.graphics then nothing_placed else self.old.line) }
    {
        if let Some(graphics) = self.graphics.take() {
            self.print(graphics_item(self.settings.lines.alignment, graphics));
        }
    }

    // Ends the line and prints an item below it.
    #[inline]
    fn print(&mut self, item: Item)
        requires { vec_len self.old.items + MOST_ITEMS ≤ vec_capacity self.old.items }
        ensures items { self.new.items.items
            ≡ self.old.items.items ++ row_and_feed self.old.settings.lines self.old.line.cells ++ item ∷ [] }
        ensures line_width { self.new.line_width ≡ self.old.line_width }
        ensures settings { self.new.settings ≡ self.old.settings }
        ensures store { self.new.store ≡ self.old.store }
        ensures graphics { self.new.graphics ≡ self.old.graphics }
        ensures stops { self.new.stops ≡ self.old.stops }
        ensures line { self.new.line ≡ nothing_placed }
    {
        end_line(&mut self.items, &mut self.line, self.settings.lines);
        self.items.push_reserved(item);
    }
}

// Ends the line if no further character of the style fits.
fn make_room(
    items: &mut Vec<Item>,
    line: &mut PrintBuffer,
    area: usize,
    lines: LineStyle,
    style: &Style,
)
    requires room { vec_len items.old + 2 ≤ vec_capacity items.old }
    requires within { area ≤ MOST_LINE_DOTS }
    requires follows { line.old.moved ≡ None }
    requires visible { (1 ≤ style.now.width) × (1 ≤ style.now.height) }
    requires narrow { (style.now.width ≤ 8) × (style.now.height ≤ 8) }
    ensures printed { (byte : ℕ) → items.new.items ≡ items.old.items
        ++ (if fits area (line.old.cells ++ cell style.now byte ∷ []) then [] else row_and_feed lines line.old.cells) }
    ensures left { (byte : ℕ) → line.new.cells ≡ (if fits area (line.old.cells ++ cell style.now byte ∷ []) then line.old.cells else []) }
    ensures follows { line.new.moved ≡ None }
    ensures fits { (byte : ℕ) → IsTrue (fits area (line.new.cells ++ cell style.now byte ∷ [])) }
{
    if line.room_for(area, style) == 0 {
        end_line(items, line, lines);
    }
}

// Puts a cell where the next one stands; if it doesn't fit there, ends the line before it.
fn put_cell(
    items: &mut Vec<Item>,
    line: &mut PrintBuffer,
    area: usize,
    lines: LineStyle,
    cell: Cell,
)
    requires room { vec_len items.old + 2 ≤ vec_capacity items.old }
    requires within { area ≤ MOST_LINE_DOTS }
    requires follows { cell.moved ≡ None }
    requires visible { (1 ≤ cell.style.width) × (1 ≤ cell.style.height) }
    requires narrow { (cell.style.width ≤ 8) × (cell.style.height ≤ 8) }
    ensures printed { items.new.items ≡ items.old.items
        ++ (if has_room area line.old cell then [] else row_and_feed lines line.old.cells) }
    ensures left { line.new ≡ with_cell area line.old cell }
{
    if !line.has_room_for(area, &cell) {
        end_line(items, line, lines);
    }
    line.push(cell);
}

// Prints the line as a row, if it has a cell. The next one stands at its beginning.
#[inline(never)]
fn print_line(items: &mut Vec<Item>, line: &mut PrintBuffer, lines: LineStyle)
    requires { vec_len items.old + 1 ≤ vec_capacity items.old }
    ensures printed { items.new.items ≡ items.old.items ++ row_of lines line.old.cells }
    ensures left { line.new ≡ nothing_placed }
    ensures room { vec_capacity items.new ≡ vec_capacity items.old }
    ensures more { vec_len items.new ≤ vec_len items.old + 1 }
{
    if line.is_empty() {
        line.follow();
    } else {
        items.push_reserved(Item::Row {
            align: lines.alignment,
            upside_down: lines.upside_down,
            cells: line.take(),
        });
    }
}

// The same; if the line has a cell, also feeds one line.
#[inline(never)]
fn end_line(items: &mut Vec<Item>, line: &mut PrintBuffer, lines: LineStyle)
    requires { vec_len items.old + 2 ≤ vec_capacity items.old }
    ensures printed { items.new.items ≡ items.old.items ++ row_and_feed lines line.old.cells }
    ensures left { line.new ≡ nothing_placed }
    ensures room { vec_capacity items.new ≡ vec_capacity items.old }
    ensures more { vec_len items.new ≤ vec_len items.old + 2 }
{
    if line.is_empty() {
        line.follow();
    } else {
        print_line(items, line, lines);
        items.push_reserved(Item::Feed {
            lines: 1,
            spacing: lines.spacing,
        });
    }
}
