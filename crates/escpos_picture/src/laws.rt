//! Proof only: the laws of pictures. The contract of each function is the law; when run, it does nothing. A law is proved with
//! this crate, and another crate cites it by calling the function.

ghost use Rattle.std.specs.Prelude.{◌≡◌, ◌≤◌, ◌+◌, ◌-◌, ◌*◌, ◌^◌, ℕ, Bool, Option, IsTrue, not, true, List, [], ◌∷◌, ◌++◌, length, false};
ghost use Rattle.std.specs.List.{AllByRecursion};
ghost use Rattle.escpos_command.specs.declared.bars.Symbology.{Symbology};
ghost use Rattle.escpos_paper.specs.declared.style.Placing.{Placing};
ghost use Rattle.escpos_paper.specs.Dots.{area_dots, margin_dots};
ghost use Rattle.escpos_command.specs.declared.parameter.choices.Correction.{Correction};
ghost use Rattle.escpos_command.specs.declared.parameter.choices.Scale.{Scale};
ghost use Rattle.escpos_paper.specs.declared.cell.Cell.{Cell};
ghost use Rattle.escpos_command.specs.declared.line_width.TheConstants.{MOST_LINE_DOTS};
ghost use Rattle.escpos_paper.specs.declared.item.Item.{Item};
ghost use Rattle.escpos_paper.specs.declared.item.Item.TheVariants.{Row, Bars, Raster, Qr, Cut};
ghost use Rattle.escpos_paper.specs.declared.style.BarStyle.{BarStyle};
ghost use Rattle.escpos_picture.specs.declared.pen.TheConstants.{DEEPEST, MARGIN};
ghost use Rattle.escpos_picture.specs.BarItems.{stands_above, stands_below, bars_top, bar_dots, bar_spans};
ghost use Rattle.escpos_picture.specs.Depths.{depths, row_above_next, bars_bottom, HasSizes};
ghost use Rattle.escpos_picture.specs.Document.{paper_height};
ghost use Rattle.escpos_picture.specs.Places.{Place, top, place_after_all, depth, face_height, cell_height, tallest, downwards, indent};
ghost use Rattle.escpos_picture.specs.Escaping.{IsEscaped, utf8_of};
ghost use Rattle.escpos_picture.specs.Groups.{drawings, drawing_at, base_line, row_start, cut_place};
ghost use Rattle.escpos_picture.specs.Moves.{MovesDown};
ghost use Rattle.escpos_picture.specs.QrSides.{qr_height};
ghost use Rattle.escpos_picture.specs.Rasters.{rows_of, raster_steps, rows_text};
ghost use Rattle.escpos_picture.specs.Rows.{characters_text};
ghost use Rattle.escpos_picture.specs.Spans.{covered, black_columns};
ghost use Rattle.escpos_picture.specs.Steps.{off_path, covered_by, black_squares, steps_text};

/// Items in turn: further items are drawn after those before them, from the place that these lead to.
pub fn drawings_in_turn()
    ensures drawn { (place : Place) (front more : List Item) →
        drawings place (front ++ more) ≡ drawings place front ++ drawings (place_after_all place front) more }
    ensures places { (place : Place) (front more : List Item) →
        place_after_all place (front ++ more) ≡ place_after_all (place_after_all place front) more }
{}

/// Order: nothing overlaps. An item begins where the depth of the items before it ends, and its own depth is added to theirs; the
/// paper is as high as the depth of all items and the two margins. So it is as long as the sum stays within the places that are
/// counted, from which 2^40 items are far: a printer that prints a thousand a second takes 34 years to print so many.
pub fn items_stand_in_order()
    ensures places { (line_dots : ℕ) (items : List Item) → depths line_dots 0 items ≤ DEEPEST → (place_after_all (top line_dots) items).down ≡ depths line_dots 0 items }
    ensures drawn { (line_dots : ℕ) (front : List Item) (item : Item) (more : List Item) → depths line_dots 0 front ≤ DEEPEST →
        drawings (top line_dots) (front ++ item ∷ more) ≡
        drawings (top line_dots) front ++ (drawing_at line_dots (depths line_dots 0 front) item ++ drawings (place_after_all (top line_dots) (front ++ item ∷ [])) more) }
    ensures next { (line_dots : ℕ) (front : List Item) (item : Item) →
        depths line_dots 0 (front ++ item ∷ []) ≡ depths line_dots 0 front + depth line_dots (row_above_next 0 front) item }
    ensures height { (line_dots : ℕ) (items : List Item) → depths line_dots 0 items ≤ DEEPEST →
        paper_height (place_after_all (top line_dots) items).down ≡ 4 * MARGIN + depths line_dots 0 items + 4 * MARGIN }
    ensures few { (line_dots : ℕ) (items : List Item) → line_dots ≤ MOST_LINE_DOTS → AllByRecursion HasSizes items → length items ≤ 2 ^ 40 → depths line_dots 0 items ≤ DEEPEST }
{}

/// Depth: what is drawn of an item stays within its depth, so that no item is drawn over the one above it or below. The base line of
/// a row is three quarters of its height down: each cell reaches above it by three quarters of its own height and below it by a
/// quarter, where its underline, at most 2 dots thick, ends too. In a row that is upside down the base line is a quarter down, each
/// cell reaches above it by a quarter and below it by three, and the row goes from its start to the left, as far from the
/// right end of the printing area as it otherwise is from the left one, where it is no wider than that. The lines of a raster, the bars of a barcode with its lines of text,
/// the box of a QR code and a cut fill their depth exactly. And what is no wider than the line ends within it.
pub fn items_stay_within()
    ensures rows_within { (line_dots : ℕ) (above : ℕ) (align : Placing) (upside_down : Bool) (cells : List Cell) → AllByRecursion (λ (x : Cell).
        (base_line upside_down (cell_height x) ≤ base_line upside_down (tallest cells))
        × (base_line upside_down (tallest cells) + base_line (not upside_down) (cell_height x) ≤ depth line_dots above (Row align upside_down cells))) cells }
    ensures underlines_within { (x : Cell) → x.style.turned ≡ false → 1 ≤ x.style.height → x.style.underline ≤ 2 →
        cell_height x - 4 * x.style.underline + 4 * x.style.underline ≡ cell_height x }
    ensures rasters_within { (line_dots : ℕ) (above : ℕ) (align : Placing) (scale : Scale) (x y : ℕ) (dots : List ℕ) →
        4 * (downwards scale * length (rows_of x y dots)) ≡ depth line_dots above (Raster align scale x y dots) }
    ensures bars_within { (line_dots : ℕ) (above : ℕ) (align : Placing) (symbology : Symbology) (style : BarStyle) (content : List ℕ) (added : Option ℕ) →
        4 * (bars_top style + style.height + bars_bottom style) ≡
        depth line_dots above (Bars align symbology style.height style.module_width style.place style.hri_font content added) }
    ensures labels_within { (style : BarStyle) → (IsTrue (stands_above style.place) → bars_top style ≡ face_height style.hri_font)
        × (IsTrue (stands_below style.place) → bars_bottom style ≡ face_height style.hri_font) }
    ensures codes_within { (line_dots : ℕ) (above : ℕ) (align : Placing) (model size : ℕ) (level : Correction) (content : List ℕ) →
        4 * qr_height line_dots size level content ≡ depth line_dots above (Qr align model size level content) }
    ensures cuts_within { (line_dots : ℕ) (above : ℕ) (partial : Bool) (feed : Option ℕ) → cut_place feed + 4 * 24 ≡ depth line_dots above (Cut partial feed) }
    ensures across { (line_dots : ℕ) (align : Placing) (width : ℕ) → width ≤ line_dots → indent line_dots align width + width ≤ line_dots }
    ensures turned { (line_dots : ℕ) (align : Placing) (width : ℕ) → width ≤ area_dots line_dots align →
        (width ≤ row_start line_dots align true width)
        × (row_start line_dots align true width + row_start line_dots align false width ≡ 2 * margin_dots line_dots align + area_dots line_dots align) }
    ensures turned_on_line { (line_dots : ℕ) (align : Placing) (width : ℕ) → width ≤ line_dots →
        (width ≤ row_start line_dots align true width) × (row_start line_dots align true width ≤ line_dots) }
{}

/// Dots: what paths draw is exactly the black dots, each once, from left to right and row by row: the dots that are 1 of the rows
/// of a raster, and the dots of a barcode's bars. The steps along a raster's rows are whole paths, and each way back ends exactly at
/// the left edge; the rows of the document are the texts of these steps.
pub fn spans_cover_dots()
    ensures rows { (rows : List (List ℕ)) → covered_by off_path (raster_steps 0 rows) ≡ Some (black_squares 0 rows) }
    ensures text { (rows : List (List ℕ)) → rows_text 0 rows ≡ steps_text (raster_steps 0 rows) }
    ensures bars { (column : ℕ) (widths : List ℕ) → covered column (bar_spans true widths) ≡ black_columns column (bar_dots true widths) }
{}

/// Text: whatever bytes were printed, and with whatever character set and code table, a reader of the document takes their text for exactly their
/// characters: the text has no control character and none of & < > " ' but in the five entities, each for its character. All that
/// stands between a tag `<text ..>` of an item and its `</text>` is such text, in a row, beside a barcode and in a box, but for the
/// words "not scannable". So nothing that was printed ends a text or begins a tag.
pub fn text_is_escaped()
    ensures { (set table : ℕ) (bytes : List ℕ) → IsEscaped (utf8_of set table bytes) (characters_text set table bytes) }
{}

/// Place: an item is drawn the same wherever it stands. All that tells how far down the paper that is is one number in its group: the
/// margin, the place of the item, and the way from there to the base line of a row or the end of the feed of a cut.
pub fn items_move()
    ensures rows { (line_dots : ℕ) (align : Placing) (upside_down : Bool) (cells : List Cell) →
        MovesDown (base_line upside_down (tallest cells)) (λ down. drawing_at line_dots down (Row align upside_down cells)) }
    ensures bars { (line_dots : ℕ) (align : Placing) (symbology : Symbology) (style : BarStyle) (content : List ℕ) (added : Option ℕ) →
        MovesDown 0 (λ down. drawing_at line_dots down (Bars align symbology style.height style.module_width style.place style.hri_font content added)) }
    ensures rasters { (line_dots : ℕ) (align : Placing) (scale : Scale) (x y : ℕ) (dots : List ℕ) → MovesDown 0 (λ down. drawing_at line_dots down (Raster align scale x y dots)) }
    ensures qr_codes { (line_dots : ℕ) (align : Placing) (model size : ℕ) (level : Correction) (content : List ℕ) →
        MovesDown 0 (λ down. drawing_at line_dots down (Qr align model size level content)) }
    ensures cuts { (line_dots : ℕ) (partial : Bool) (feed : Option ℕ) → MovesDown (cut_place feed) (λ down. drawing_at line_dots down (Cut partial feed)) }
{}
