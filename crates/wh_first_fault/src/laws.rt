//! Laws on the first faults of maps and points files. Each function does nothing, and its contract is the law. A reader
//! reports what `map_at` and `layout_at` give, as the readers' contracts say.

ghost use Rattle.std.specs.Prelude.{◌≡◌, ℕ, List, Err};
ghost use Rattle.wh_text.specs.Lines.{lines_of};
ghost use Rattle.wh_grid.specs.declared.fault.Fault.{Fault};
ghost use Rattle.wh_grid.specs.Grids.{Floor};
ghost use Rattle.wh_grid.specs.Grammar.{IsMap};
ghost use Rattle.wh_grid.specs.Maps.{map_at};
ghost use Rattle.wh_points.specs.declared.fault.Fault.{Fault as PointsFault};
ghost use Rattle.wh_points.specs.Points.{Layout};
ghost use Rattle.wh_points.specs.PointFiles.{layout_at};
ghost use Rattle.wh_points.specs.PointGrammar.{IsPointsFile};
ghost use Rattle.wh_first_fault.specs.MapFaults.{IsFirstFault};
ghost use Rattle.wh_first_fault.specs.PointFaults.{IsFirstFault as IsFirstPointsFault};

/// The fault reported for a map is the first one, of its kind. No function calls this.
pub fn map_faults_are()
    // What reading tells is the first fault.
    ensures first { (text : List ℕ) (fault : Fault) → map_at text ≡ Err fault → IsFirstFault (lines_of text) fault }
    // Lines have their first fault at one line.
    ensures line { (lines : List (List ℕ)) (a b : Fault) → IsFirstFault lines a → IsFirstFault lines b → a.line ≡ b.line }
    // No map has one.
    ensures none { (lines : List (List ℕ)) (fault : Fault) (floor : Floor) → IsFirstFault lines fault → IsMap lines floor → ⊥ }
{}

/// The fault reported for a points file is the first one, of its kind. No function calls this.
pub fn point_faults_are()
    // What reading tells is the first fault.
    ensures first { (g : Floor) (text : List ℕ) (fault : PointsFault) → layout_at g text ≡ Err fault → IsFirstPointsFault g (lines_of text) fault }
    // Lines have their first fault at one line.
    ensures line { (g : Floor) (lines : List (List ℕ)) (a b : PointsFault) → IsFirstPointsFault g lines a → IsFirstPointsFault g lines b → a.line ≡ b.line }
    // No points file has one.
    ensures none { (g : Floor) (lines : List (List ℕ)) (fault : PointsFault) (layout : Layout) → IsFirstPointsFault g lines fault → IsPointsFile g lines layout → ⊥ }
{}
