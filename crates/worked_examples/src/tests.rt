// The tests, by what they are of.
mod block_machine_calls;
mod boots;
mod command_lines;
mod command_tables;
mod disk_pages;
mod dues_and_disks;
mod error_logs;
mod frame_information_structures;
mod frame_loans;
mod full_books;
mod ranges;
mod registers;
mod requests_of_clients;
mod scripts;
mod told_steps;
mod trim_blocks;
