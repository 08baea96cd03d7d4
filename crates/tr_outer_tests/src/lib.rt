//! The tests of what goes into sessions and out of them: what each line asks for, and runs of scripts in which reading, writing
//! or memory fails (tr_command, tr_console); archives in memory, disks that fail, and surveys of folders in memory (tr_folders,
//! tr_export, tr_survey); pictures (tr_picture); what is recovered of images (tr_image, tr_recover). Whole scripts, and
//! archives in the file system, are in `examples`.
#![tactic(auto)]

#[cfg(test)]
mod archives;
#[cfg(test)]
mod asserting;
#[cfg(test)]
mod command_lines;
#[cfg(test)]
mod declarations;
#[cfg(test)]
mod descriptions;
#[cfg(test)]
mod images;
#[cfg(test)]
mod pictures;
#[cfg(test)]
mod scripts;
#[cfg(test)]
mod surveys;
