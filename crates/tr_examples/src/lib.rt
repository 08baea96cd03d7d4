//! The examples, computed by the definitions alone, without any code.
//!
//! # What is proved
//!
//! - For each script in `examples/` itself the definitions give the answer that was worked out by hand. Those in its subfolders
//!   are only run (`every_example`: `tour`, `archives`, `first_run`, `gaps`, `moments`, `nobody`, `overwriting`, `pending`,
//!   `rotation`, `schedule`, `sizes`, `snapshot`, `stopped`, `empty`).
//! - They do the same for a packet's bytes, for archives' names, and for two files with their audits (`every_file`: `packet`,
//!   `size`, `west`, `before`, `archived`, `file`, `audit`, `gaps`, `nothing`, `whole`, `second`, `short`, `magic`, `twice`).
#![tactic(auto)]

ghost use Rattle.std.specs.Prelude.{◌≡◌, ◌∷◌, [], Some, None, codes, drop, length, map, neg_ℤ, option_map, pos, slice_get, take};
ghost use Rattle.tr_chunk.specs.ArchiveName.{archive_name_text};
ghost use Rattle.tr_chunk.specs.Audit.{audit_of, packet_cause};
ghost use Rattle.tr_chunk.specs.declared.audit_fault.AuditCause.TheVariants.{NumberRepeat};
ghost use Rattle.tr_console.specs.Script.{script_text};
ghost use Rattle.tr_examples.specs.Files.{archived_audit, archived_file, empty_audit, first_chunk, gaps_audit, one_record, one_record_bytes, outline, trace};
ghost use Rattle.tr_packet.specs.Decoding.{first_fault};
ghost use Rattle.tr_packet.specs.Packets.{packet_text};
ghost use Rattle.tr_packet.specs.declared.faults.PacketFault.TheVariants.{BadMagic, Short};
ghost use Rattle.tr_examples.specs.Offers.{nobody_script, nobody_answer, first_run_script, first_run_answer, sizes_script, sizes_answer, moments_script, moments_answer, overwriting_script, overwriting_answer, gaps_script, gaps_answer};
ghost use Rattle.tr_examples.specs.Rotations.{archives_script, archives_answer, pending_script, pending_answer, rotation_script, rotation_answer, stopped_script, stopped_answer, schedule_script, schedule_answer};
ghost use Rattle.tr_examples.specs.Snapshots.{empty_script, empty_answer, snapshot_script, snapshot_answer};
ghost use Rattle.tr_examples.specs.Tour.{tour_script, tour_answer};

/// Each example's answer is what the definitions make of its script. Does nothing.
pub fn every_example()
    ensures archives { script_text archives_script ≡ archives_answer }
    ensures empty { script_text empty_script ≡ empty_answer }
    ensures first_run { script_text first_run_script ≡ first_run_answer }
    ensures gaps { script_text gaps_script ≡ gaps_answer }
    ensures moments { script_text moments_script ≡ moments_answer }
    ensures nobody { script_text nobody_script ≡ nobody_answer }
    ensures overwriting { script_text overwriting_script ≡ overwriting_answer }
    ensures pending { script_text pending_script ≡ pending_answer }
    ensures rotation { script_text rotation_script ≡ rotation_answer }
    ensures schedule { script_text schedule_script ≡ schedule_answer }
    ensures sizes { script_text sizes_script ≡ sizes_answer }
    ensures snapshot { script_text snapshot_script ≡ snapshot_answer }
    ensures stopped { script_text stopped_script ≡ stopped_answer }
    ensures tour { script_text tour_script ≡ tour_answer }
{}

/// A packet's bytes, an archive's names, and the files of the examples, by the definitions alone. Does nothing.
pub fn every_file()
    ensures packet { packet_text one_record ≡ one_record_bytes }
    ensures size { length one_record_bytes ≡ 105 }
    ensures archived { map outline (first_chunk archives_script)
        ≡ (0, (0, 0 ∷ 1 ∷ [])) ∷ (1, (1, 2 ∷ 3 ∷ 5 ∷ [])) ∷ [] }
    ensures file { length archived_file ≡ 484 }
    ensures audit { audit_of {A = Unit {0}} (first_chunk archives_script) ≡ archived_audit }
    ensures gaps { audit_of {A = Unit {0}} (first_chunk gaps_script) ≡ gaps_audit }
    ensures nothing { audit_of {A = Unit {0}} [] ≡ empty_audit }
    ensures whole { first_fault archived_file ≡ None }
    ensures second { first_fault (drop 228 archived_file) ≡ None }
    ensures short { first_fault (drop 228 (take 483 archived_file)) ≡ Some Short }
    ensures magic { first_fault (0 ∷ drop 1 archived_file) ≡ Some BadMagic }
    ensures twice { option_map (packet_cause trace 0 (Some 1) (Some 5)) (slice_get (first_chunk archives_script) 0)
        ≡ Some (Some NumberRepeat) }
    ensures west { archive_name_text 1700000000000000000 1700000060000000000 (neg_ℤ (pos 300)) 0
        ≡ codes "20231114T171320-0500-20231114T171420-0500-0" }
    ensures before { archive_name_text 0 0 (neg_ℤ (pos 30)) 3
        ≡ codes "19691231T233000-0030-19691231T233000-0030-3" }
{}
