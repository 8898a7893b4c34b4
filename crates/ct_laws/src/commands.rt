//! Facts about the commands of every input.

ghost use Rattle.std.specs.Prelude.{◌≡◌, ◌+◌, ◌<◌, ◌^◌, ℕ, List, [], ◌∷◌, ◌++◌, All, length, map, replicate, codes, Option, Some, None, false, true};
ghost use Rattle.std.specs.List.{join_with_byte};
ghost use Rattle.ct_text.specs.declared.document_lines.TheConstants.{LINE_FEED};
ghost use Rattle.ct_words.specs.declared.claim.Side.TheVariants.{Lower, Upper};
ghost use Rattle.ct_io.specs.Lines.{lines_of};
ghost use Rattle.ct_names.specs.Id.{is_id};
ghost use Rattle.ct_text.specs.Gathering.{is_end};
ghost use Rattle.ct_text.specs.DocumentLines.{line_count};
ghost use Rattle.ct_text.specs.declared.gathering.Extent.{Extent};
ghost use Rattle.ct_text.specs.declared.gathering.Extent.TheVariants.{ToEnd, Lines};
ghost use Rattle.ct_commands.specs.Form.{form_of};
ghost use Rattle.ct_commands.specs.Command.{commands_of};
ghost use Rattle.ct_commands.specs.Input.{AskFor};
ghost use Rattle.ct_commands.specs.Submission.{submission_text};
ghost use Rattle.ct_commands.specs.declared.form.Form.TheVariants.{Nothing, Submit, Whole};
ghost use Rattle.ct_commands.specs.declared.command.Command.{Command};
ghost use Rattle.ct_commands.specs.declared.command.Command.TheVariants as command;

/// Lines ask for one list of commands, whatever a submission asks for whose document they cut short; and so do those of an input.
pub fn lines_ask_for_one_list()
    ensures some { (last : List Command) (lines : List (List ℕ)) → (commands : List Command) × AskFor last lines commands }
    ensures one { (last : List Command) (lines : List (List ℕ)) (first second : List Command)
        → AskFor last lines first → AskFor last lines second → first ≡ second }
    ensures input { (lines : List (List ℕ)) → AskFor (command.CutOff ∷ []) lines (commands_of lines) }
{}

/// The text of a submission is one command, the submission of the document under the id, whatever follows.
pub fn submissions_are_read_as_written()
    ensures { (id document rest : List ℕ) → is_id id ≡ true → line_count document < 2 ^ 64
        → commands_of (lines_of (submission_text id document ++ rest))
        ≡ command.Submission (Some id) document ∷ commands_of (lines_of rest) }
{}

/// Every form of a line, and lines that have one word too many for it, or one too few.
pub fn known_forms()
    ensures nothing { map form_of ([] ∷ codes "  " ∷ codes "# show 4 3" ∷ []) ≡ replicate 3 Nothing }
    ensures submit { form_of (codes "submit a") ≡ Submit (Some (codes "a")) ToEnd }
    ensures submit_lines { form_of (codes "submit a lines 3") ≡ Submit (Some (codes "a")) (Lines 3) }
    ensures no_submit { map form_of (codes "submit" ∷ codes "submit a lines" ∷ codes "submit a lines 3 x" ∷ codes "submit a lines 0" ∷ codes "submit a line 3"
        ∷ codes "submit A" ∷ []) ≡ replicate 6 (Submit None ToEnd) }
    ensures withdraw { form_of (codes "withdraw a") ≡ Whole (command.Withdraw (codes "a")) }
    ensures withdraw_all { form_of (codes "withdraw a all") ≡ Whole (command.WithdrawAll (codes "a")) }
    ensures named_all { form_of (codes "withdraw all") ≡ Whole (command.Withdraw (codes "all")) }
    ensures all_of_all { form_of (codes "withdraw all all") ≡ Whole (command.WithdrawAll (codes "all")) }
    ensures no_withdraw_all { map form_of (codes "withdraw A all" ∷ codes "withdraw a all b" ∷ codes "withdraw a alle" ∷ []) ≡ replicate 3 (Whole command.Unknown) }
    ensures show { form_of (codes "show 4 3") ≡ Whole (command.Show (record { n = 4; d = 3; w = None })) }
    ensures show_weight { form_of (codes "show 8 4 2") ≡ Whole (command.Show (record { n = 8; d = 4; w = Some 2 })) }
    ensures table { form_of (codes "table 4") ≡ Whole (command.Table (record { d = 4; w = None })) }
    ensures table_weight { form_of (codes "table 4 2") ≡ Whole (command.Table (record { d = 4; w = Some 2 })) }
    ensures explain_lower { form_of (codes "explain lower 5 3") ≡ Whole (command.Explain Lower (record { n = 5; d = 3; w = None })) }
    ensures explain_upper { form_of (codes "explain upper 11 6 4") ≡ Whole (command.Explain Upper (record { n = 11; d = 6; w = Some 4 })) }
    ensures no_side { map form_of (codes "explain 5 3" ∷ codes "explain both 5 3" ∷ codes "explain 5 3 lower" ∷ []) ≡ replicate 3 (Whole command.Unknown) }
    ensures list { form_of (codes "list 5 3") ≡ Whole (command.List (record { n = 5; d = 3; w = None })) }
    ensures list_weight { form_of (codes "list 6 4 3") ≡ Whole (command.List (record { n = 6; d = 4; w = Some 3 })) }
    ensures ledger { form_of (codes "ledger") ≡ Whole command.Ledger }
    ensures dump { form_of (codes "dump") ≡ Whole command.Dump }
    ensures too_few { map form_of (codes "withdraw" ∷ codes "show 4" ∷ codes "table" ∷ codes "explain" ∷ codes "explain lower 5" ∷ codes "list 5" ∷ [])
        ≡ replicate 6 (Whole command.Unknown) }
    ensures too_many { map form_of (codes "withdraw a b" ∷ codes "show 8 4 2 1" ∷ codes "table 4 2 1" ∷ codes "explain lower 8 4 2 1" ∷ codes "list 8 4 2 1" ∷ codes "list 5 3 x" ∷ codes "ledger a"
        ∷ codes "dump a" ∷ []) ≡ replicate 8 (Whole command.Unknown) }
    ensures no_name { map form_of (codes "help" ∷ codes "shows 4 3" ∷ []) ≡ replicate 2 (Whole command.Unknown) }
{}
